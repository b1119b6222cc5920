// The calls below their judging: what a write, a block return and a block restore do to a valid port and a screen of 1,920 bytes, and a taking of marks to the port alone. `console` and `multiplexer` judge a call and make it here; the one refusal that both have, of a screen, is here too.
// A port comes by value and the screen is lent beside it, here and above: paper 01 hands a port in and back, and the host draws from its own screen (`Replies`), so the two are no struct with methods.
#![tactic(auto)]

ghost use Rattle.std.specs.Prelude.{◌≡◌, [], ◌∷◌, OnOk};
ghost use Rattle.port.specs.Valid.{ValidPort};
ghost use Rattle.reply.specs.Reply.{Replies};
ghost use Rattle.calls.specs.Verdict.{screen_verdict};
ghost use Rattle.calls.specs.Calls.{written, block_returned, block_restored};
ghost use Rattle.calls.specs.Taking.{marks_taken, taken_of};

use block::{block_fits, block_length, copy_in, copy_out};
use executor::{execute_byte, execute_stream};
use marks::{count, mark};
use port::Port;
use port::state::with_marks;
use reply::Status;
use screen::{Screen, is_screen};

// Refusal 1, by the screen's length: of every call that takes a screen. It answers with no array: a block return lends the screen shared, and a call by client judges more before it is used.
#[tactic(auto, unfolding(crate::specs::Verdict::screen_verdict, screen::specs::Size::is_screen))]
pub fn screen_verdict(length: usize) -> Result<(), Status>
    ensures verdict { result ≡ screen_verdict length }
    ensures fits { OnOk result (length ≡ 1920) }
{
    if is_screen(length) {
        Ok(())
    } else {
        Err(Status::ScreenLength)
    }
}

// What a call on a port hands back.
pub type Answer = reply::Answer<Port>;

pub type Taking = reply::Taking<Port>;

// Obeys a stream: each byte does what paper 01's tables say. The count is of the bells that it rang.
#[tactic(auto, unfolding(crate::specs::Calls::written))]
pub fn write(p: Port, screen: &mut Screen, bytes: &[u8]) -> Answer
    requires { ValidPort p }
    ensures { Replies (written p screen.old bytes.now) result.status result.state result.count screen.new bytes.now }
{
    let written = execute_stream(screen, p, bytes);
    Answer::done(written.port, written.bells)
}

// A write of one byte, by value: below the step that paper 01 asks for by place.
#[tactic(auto, unfolding(crate::specs::Calls::written))]
pub fn write_byte(p: Port, screen: &mut Screen, byte: u8) -> Answer
    requires { ValidPort p }
    ensures { Replies (written p screen.old (byte ∷ [])) result.status result.state result.count screen.new (byte ∷ []) }
{
    let obeyed = execute_byte(screen, p, byte);
    Answer::done(obeyed.port, obeyed.bells)
}

// Hands the viewport's text out: the block fills the front of the lent one. The count is of its bytes.
#[tactic(auto, unfolding(crate::specs::Calls::block_returned))]
pub fn return_block(p: Port, screen: &Screen, block: &mut [u8]) -> Answer
    requires { ValidPort p }
    ensures { Replies (block_returned p screen.now block.old) result.status result.state result.count screen.now block.new }
{
    let rect = p.view.viewport;
    let size = block_length(rect);
    if block.len() < size {
        return Answer::refused(Status::BlockTooShort, p);
    }
    copy_out(screen, rect, block);
    Answer::done(p, size)
}

// Puts a block's text into the viewport, whose lines are marked. The cursor stays.
#[tactic(auto, unfolding(crate::specs::Calls::block_restored, block::specs::Block::block_fits))]
pub fn restore_block(p: Port, screen: &mut Screen, block: &[u8]) -> Answer
    requires { ValidPort p }
    ensures { Replies (block_restored p screen.old block.now) result.status result.state result.count screen.new block.now }
{
    let rect = p.view.viewport;
    if block_fits(rect, block) {
        copy_in(screen, rect, block);
        let marks = mark(p.marks, rect.top, rect.bottom);
        return Answer::done(with_marks(p, marks), 0);
    }
    Answer::refused(Status::BlockMismatch, p)
}

// Hands out the marks and clears them. No screen is lent, and no block.
#[tactic(auto, using(marks::proofs::Marking::within_small), unfolding(crate::specs::Taking::marks_taken))]
pub fn take_marks(p: Port) -> Taking
    requires { ValidPort p }
    ensures { Replies (marks_taken p [] []) result.status result.state (taken_of result.marks result.count) [] [] }
{
    Taking::done(with_marks(p, 0), p.marks, count(p.marks))
}
