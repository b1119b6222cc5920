// Answers as bytes, for callers in other languages: each lies at the front of a lent slice, a word at a place of it. The other bytes stay.
ghost use Rattle.std.specs.Prelude.{◌≡◌, ◌+◌, ◌≤◌, ◌++◌, length, take, drop};
ghost use Rattle.session.specs.Answer.{word_of, head_of, end_of};

use super::Session;
use console::take_marks;
use reply::status_number;

// A number's low four bytes, lowest first, at a place: of the whole answer, as the clause says what stays on both sides.
pub fn put_word(answer: &mut [u8], at: usize, n: u64)
    requires { at + 4 ≤ length answer.old }
    ensures { answer.new ≡ take at answer.old ++ word_of n ++ drop (at + 4) answer.old }
{
    answer[at..at + 4].copy_from_slice(&n.to_le_bytes()[..4]);
}

// The status, and the count as a word.
pub fn put_head(answer: &mut [u8], status: u8, count: u64)
    requires { 5 ≤ length answer.old }
    ensures { answer.new ≡ head_of status count ++ drop 5 answer.old }
{
    answer[0] = status;
    put_word(answer, 1, count);
}

// A session's end: the last status and the bells, the cursor, and what a taking of its port hands out.
pub fn put_end(answer: &mut [u8], end: Session)
    requires { 12 ≤ length answer.old }
    ensures { answer.new ≡ end_of end ++ drop 12 answer.old }
{
    let view = end.port.view;
    let taken = take_marks(end.port);
    put_head(answer, status_number(end.status), end.bells);
    answer[5] = view.column;
    answer[6] = view.line;
    put_word(answer, 7, taken.marks as u64);
    answer[11] = taken.count as u8;
}
