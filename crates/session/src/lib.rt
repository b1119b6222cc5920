// A plain console kept for a session. A stream may come in pieces of any size, or byte after byte.
#![tactic(auto)]

pub mod answer;

ghost use Rattle.std.specs.Prelude.{◌≡◌, ◌<◌};
ghost use Rattle.session.specs.Session as rules;

use calls::Answer;
use console::{fresh_console, put_byte_by_value, write};
use port::Port;
use reply::Status;

// A status beside the rest, as an answer has it (`Status`): that of the last call, and Done before the first. There are at most as many bells as bytes, so the sum never wraps.
#[derive(Clone, Copy)]
pub struct Session {
    pub port: Port,
    pub bells: u64,
    pub status: Status,
}

pub fn fresh_session() -> Session
    ensures { result ≡ rules.fresh_session }
{
    Session {
        port: fresh_console(),
        bells: 0,
        status: Status::Done,
    }
}

// The session after a call.
fn after(at: Session, answer: Answer) -> Session
    ensures { result ≡ rules.after at answer.status answer.state answer.count }
{
    Session {
        port: answer.state,
        bells: at.bells.wrapping_add(answer.count as u64),
        status: answer.status,
    }
}

// One write.
pub fn feed(screen: &mut [u8], at: Session, bytes: &[u8]) -> Session
    ensures { rules.Fed at screen.old bytes.now result screen.new }
{
    after(at, write(at.port, screen, bytes))
}

// The bytes in writes of at most size bytes. No bytes are one empty write, which is judged as any other.
pub fn feed_in_pieces(screen: &mut [u8], at: Session, bytes: &[u8], size: usize) -> Session
    requires { 0 < size }
    ensures { rules.Fed at screen.old bytes.now result screen.new }
{
    if bytes.is_empty() {
        return feed(screen, at, bytes);
    }
    let mut now = at;
    for piece in bytes.chunks(size) {
        now = feed(screen, now, piece);
    }
    now
}

// The bytes one after another by the one-byte call, which changes a port where it lies.
pub fn feed_bytewise(screen: &mut [u8], at: Session, bytes: &[u8]) -> Session
    ensures { rules.FedIfAny at screen.old bytes.now result screen.new }
{
    let mut now = at;
    for &byte in bytes {
        now = after(now, put_byte_by_value(now.port, screen, byte));
    }
    now
}
