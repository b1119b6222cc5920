// Runs from Rust, for tests and benchmarks: a script of calls by client, a plain stream in pieces or byte after byte, or an input field's calls (`fields`). Scripts, streams and answers are bytes; a field's answers are numbers.
// Of state only a field's length and cursor, and the marks of ports, cross this boundary. What it assumes of its caller is outside the proofs: each pointer is good for its length, and lent slices do not overlap.
#![tactic(auto)]

mod fields;
mod script;

ghost use Rattle.std.specs.Prelude.{◌≡◌, ◌≤◌, ◌↔◌, length, IsSome, MatchOption};
ghost use Rattle.boundary.specs.Script.{answer_length};
ghost use Rattle.boundary.specs.Run.{Runs};
ghost use Rattle.boundary.specs.Stream.{stream_run, bytewise_run};

use multiplexer::{
    Answer, Taking, close, fresh_multiplexer, open, restore_block, return_block, take_marks, write,
};
use reply::{Status, status_number};
use script::{Call, Request, parse_call};
use session::answer::{put_end, put_head, put_word};
use session::{feed_bytewise, feed_in_pieces, fresh_session};
use slots::Multiplexer;

// What a call of any kind hands back, a status beside the rest, as an answer has it (`Status`). One that is no taking returns no marks.
#[derive(Clone, Copy)]
struct Outcome {
    status: Status,
    multiplexer: Multiplexer,
    count: usize,
    marks: u32,
}

impl From<Answer> for Outcome {
    fn from(answer: Answer) -> Outcome {
        Outcome {
            status: answer.status,
            multiplexer: answer.state,
            count: answer.count,
            marks: 0,
        }
    }
}

impl From<Taking> for Outcome {
    fn from(taking: Taking) -> Outcome {
        Outcome {
            status: taking.status,
            multiplexer: taking.state,
            count: taking.count,
            marks: taking.marks,
        }
    }
}

// One call. A block return hands out into `block`, a copy of what the script lends it.
fn dispatch(m: Multiplexer, screen: &mut [u8], call: Call<'_>, block: &mut [u8]) -> Outcome {
    let client = call.client;
    match call.request {
        Request::Open(pane) => open(m, screen, client, pane).into(),
        Request::Close => close(m, client).into(),
        Request::Write(bytes) => write(m, screen, client, bytes).into(),
        Request::ReturnBlock(_) => return_block(m, screen, client, block).into(),
        Request::RestoreBlock(bytes) => restore_block(m, screen, client, bytes).into(),
        Request::TakeMarks => take_marks(m, client).into(),
    }
}

// The marks that each slot's port holds, a word each, slot 0 first.
fn put_slot_marks(words: &mut [u8; 16], m: Multiplexer) {
    for (word, slot) in words.chunks_exact_mut(4).zip(m.slots.iter()) {
        put_word(word, 0, slot.port.marks as u64);
    }
}

// The multiplexer after a call, and the length of its answer.
#[derive(Clone, Copy)]
struct Served {
    multiplexer: Multiplexer,
    length: usize,
}

// Makes a call, and puts its answer at the front of answers: the status, the count and the marks that the call returned, the lent block, the slots' marks and the screen.
// Where there is no room for the answer, nothing is done.
fn serve(m: Multiplexer, screen: &mut [u8], call: Call<'_>, answers: &mut [u8]) -> Option<Served>
    ensures room { IsSome result ↔ (answer_length call.entry.request (length screen.old) ≤ length answers.old) }
    ensures answered { MatchOption result (Unit {0}) (λ served. served.length ≡ answer_length call.entry.request (length screen.old)) }
{
    let lent = call.request.lent_block();
    let (head, after_head) = answers.split_first_chunk_mut::<9>()?;
    let (block, after_block) = after_head.split_at_mut_checked(lent.len())?;
    let (words, after_words) = after_block.split_first_chunk_mut::<16>()?;
    let (cells, _) = after_words.split_at_mut_checked(screen.len())?;
    block.copy_from_slice(lent);
    let outcome = dispatch(m, screen, call, block);
    put_head(head, status_number(outcome.status), outcome.count as u64);
    put_word(head, 5, outcome.marks as u64);
    put_slot_marks(words, outcome.multiplexer);
    cells.copy_from_slice(screen);
    Some(Served {
        multiplexer: outcome.multiplexer,
        length: 25 + lent.len() + screen.len(),
    })
}

// Runs a script in order, on a fresh multiplexer and the lent screen. The answers (`serve`) go to the front of answers; the result is how many bytes they are.
// A call that is cut off or unknown ends the run, and so does one whose answer finds no room: it is not served.
#[unsafe(no_mangle)]
pub extern "C" fn combthrift_run_script(
    script: &[u8],
    screen: &mut [u8],
    answers: &mut [u8],
) -> usize {
    let mut m = fresh_multiplexer();
    let mut rest = script;
    let mut to = 0;
    while let Some(call) = parse_call(rest) {
        let Some(served) = serve(m, screen, call, &mut answers[to..]) else {
            break;
        };
        m = served.multiplexer;
        to += served.length;
        rest = call.rest;
    }
    to
}

// Hands a stream to a fresh plain console in writes of at most size bytes.
// The result is the length of the answer (`put_end`), or 0, with nothing done, where size is 0 or there is no room for it: the C interface has no Option (`Runs`).
#[unsafe(no_mangle)]
pub extern "C" fn combthrift_run_stream(
    bytes: &[u8],
    size: usize,
    screen: &mut [u8],
    answer: &mut [u8],
) -> usize
    ensures { Runs (stream_run bytes.now size screen.old answer.old) result screen.new answer.new }
{
    if size == 0 {
        return 0;
    }
    if answer.len() < 12 {
        return 0;
    }
    put_end(answer, feed_in_pieces(screen, fresh_session(), bytes, size));
    12
}

// Hands a stream to a fresh plain console, byte after byte by the one-byte call.
// The result is the length of the answer (`put_end`), or 0, with nothing done, where there is no room for it, as the C interface has no Option (`Runs`).
#[unsafe(no_mangle)]
pub extern "C" fn combthrift_put_bytes(bytes: &[u8], screen: &mut [u8], answer: &mut [u8]) -> usize
    ensures { Runs (bytewise_run bytes.now screen.old answer.old) result screen.new answer.new }
{
    if answer.len() < 12 {
        return 0;
    }
    put_end(answer, feed_bytewise(screen, fresh_session(), bytes));
    12
}
