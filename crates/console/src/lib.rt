// The plain console of paper 01: what a host calls. No public function has a `requires`: every input, refused or not, has its equation.
// A call is judged here and made in `calls`.
// A screen is a slice of any length here, which refusal 1 judges (`screen_verdict`), and an array below. Each call is refused or made in two lines of its own: they lend screen and block each in another way.
#![tactic(auto)]

ghost use Rattle.std.specs.Prelude.{◌≡◌, [], ◌∷◌, length, OnOk};
ghost use Rattle.laws.specs.Parts.{IsPart};
ghost use Rattle.port.specs.Valid.{ValidPort};
ghost use Rattle.reply.specs.Reply.{Replies};
ghost use Rattle.calls.specs.Taking.{taken_of};
ghost use Rattle.console.specs.Calls.{fresh_console, write_call, return_call, restore_call, take_call, row_call, port_verdict, plain_verdict};

use block::row_stretch;
use calls::{Answer, Taking, screen_verdict};
use port::Port;
use port::state::fresh_port;
use port::valid::valid_port;
use rectangle::{Rect, height_of};
use reply::Status;
use screen::no_cells;

// A fresh port of the whole screen.
pub fn fresh_console() -> Port
    ensures { result ≡ fresh_console }
{
    fresh_port(Rect {
        left: 0,
        top: 0,
        right: 79,
        bottom: 23,
    })
}

// Refusal 2.
#[inline(always)]
#[tactic(auto, unfolding(crate::specs::Calls::port_verdict))]
fn port_verdict(p: Port) -> Result<(), Status>
    ensures verdict { result ≡ port_verdict p }
    ensures valid { OnOk result (ValidPort p) }
{
    if valid_port(p) {
        Ok(())
    } else {
        Err(Status::Invalid)
    }
}

// Refusal 1 before it.
#[inline(always)]
#[tactic(auto, unfolding(crate::specs::Calls::plain_verdict, calls::specs::Verdict::first_of))]
fn plain_verdict(p: Port, length: usize) -> Result<(), Status>
    ensures verdict { result ≡ plain_verdict p length }
    ensures valid { OnOk result (ValidPort p) }
    ensures fits { OnOk result (length ≡ 1920) }
{
    screen_verdict(length)?;
    port_verdict(p)
}

// Obeys a stream: each byte does what paper 01's tables say. The count is of the bells that it rang.
#[tactic(auto, unfolding(calls::specs::Verdict::on_verdict))]
pub fn write(p: Port, screen: &mut [u8], bytes: &[u8]) -> Answer
    ensures { Replies (write_call p screen.old bytes.now) result.status result.state result.count screen.new bytes.now }
{
    if let Err(status) = plain_verdict(p, screen.len()) {
        return Answer::refused(status, p);
    }
    calls::write(p, screen.as_mut_array().unwrap(), bytes)
}

// A write of one byte by value: paper 01 asks for it by place, as the step of the one-byte call.
#[tactic(auto, unfolding(calls::specs::Verdict::on_verdict))]
fn write_byte(p: Port, screen: &mut [u8], byte: u8) -> Answer
    ensures { Replies (write_call p screen.old (byte ∷ [])) result.status result.state result.count screen.new (byte ∷ []) }
{
    if let Err(status) = plain_verdict(p, screen.len()) {
        return Answer::refused(status, p);
    }
    calls::write_byte(p, screen.as_mut_array().unwrap(), byte)
}

// What the one-byte call hands back besides the port: a status beside the count, as an answer has it (`Status`).
#[derive(Clone, Copy, PartialEq, Eq, Debug)]
pub struct ByteAnswer {
    pub status: Status,
    pub count: usize,
}

// The one-byte call, for hosts that keep one port for a session: the port is changed where it lies.
pub fn put_byte(port: &mut Port, screen: &mut [u8], byte: u8) -> ByteAnswer
    ensures { Replies (write_call port.old screen.old (byte ∷ [])) result.status port.new result.count screen.new (byte ∷ []) }
{
    let answer = write_byte(*port, screen, byte);
    *port = answer.state;
    ByteAnswer {
        status: answer.status,
        count: answer.count,
    }
}

// The one-byte call on a port in a local: the same by value, for callers that keep no reference. It lends `put_byte` the local, so that the public step is one.
pub fn put_byte_by_value(p: Port, screen: &mut [u8], byte: u8) -> Answer
    ensures { Replies (write_call p screen.old (byte ∷ [])) result.status result.state result.count screen.new (byte ∷ []) }
{
    let mut port = p;
    let answer = put_byte(&mut port, screen, byte);
    Answer {
        status: answer.status,
        state: port,
        count: answer.count,
    }
}

// Hands the viewport's text out: the block fills the front of the lent one. The count is of its bytes.
#[tactic(auto, unfolding(calls::specs::Verdict::on_verdict))]
pub fn return_block(p: Port, screen: &[u8], block: &mut [u8]) -> Answer
    ensures { Replies (return_call p screen.now block.old) result.status result.state result.count screen.now block.new }
{
    if let Err(status) = plain_verdict(p, screen.len()) {
        return Answer::refused(status, p);
    }
    calls::return_block(p, screen.as_array().unwrap(), block)
}

// Puts a block's text into the viewport, whose lines are marked. The cursor stays.
#[tactic(auto, unfolding(calls::specs::Verdict::on_verdict))]
pub fn restore_block(p: Port, screen: &mut [u8], block: &[u8]) -> Answer
    ensures { Replies (restore_call p screen.old block.now) result.status result.state result.count screen.new block.now }
{
    if let Err(status) = plain_verdict(p, screen.len()) {
        return Answer::refused(status, p);
    }
    calls::restore_block(p, screen.as_mut_array().unwrap(), block)
}

// Hands out the marks of the lines that were stored to (line r is bit r, line 0 the lowest), and how many they are, and clears them. No screen is lent.
#[tactic(auto, unfolding(calls::specs::Verdict::on_verdict))]
pub fn take_marks(p: Port) -> Taking
    ensures { Replies (take_call p) result.status result.state (taken_of result.marks result.count) [] [] }
{
    if let Err(status) = port_verdict(p) {
        return Taking::refused(status, p);
    }
    calls::take_marks(p)
}

// A row of the viewport, 0 at the top: that stretch of the lent screen itself, or an empty one, as paper 01 asks (`row_call`).
#[tactic(auto, unfolding(crate::specs::Calls::row_call, crate::specs::Calls::plain_verdict, calls::specs::Verdict::screen_verdict, calls::specs::Verdict::first_of, crate::specs::Calls::port_verdict))]
pub fn row_view(p: Port, screen: &[u8], row: usize) -> &[u8]
    ensures { IsPart screen.entry result (row_call p (length screen.now) row) }
{
    if plain_verdict(p, screen.len()).is_err() {
        return no_cells(screen);
    }
    let rect = p.view.viewport;
    if row < height_of(rect) as usize {
        return row_stretch(screen, rect, row);
    }
    no_cells(screen)
}
