// The executor: the loop over the bytes of a stream. Printing codes go to `printer`; $01 and $04, which touch what is saved, are obeyed here; all other bytes go to `control`. It counts the bells.
#![tactic(auto)]

mod saved;

ghost use Rattle.std.specs.Prelude.{◌≡◌, cond, ◌&&◌, ◌||◌, [], ◌∷◌, eqb};
ghost use Rattle.port.specs.Valid.{ValidPort};
ghost use Rattle.port.specs.Stream.{stream};
ghost use Rattle.printer.specs.Execute.{Executed};

use control::active::{active_of, with_active, with_drawn};
use control::step;
use port::Port;
use printer::print_codes;
use saved::obey_on_saved;
use screen::Screen;

// The port that comes next, and the bells that were rung.
#[derive(Clone, Copy, PartialEq, Eq, Debug)]
pub struct Progress {
    pub port: Port,
    pub bells: usize,
}

// Whether a code is $01 or $04.
fn touches_saved(code: u8) -> bool
    ensures { result ≡ (eqb code 1 || eqb code 4) }
{
    code == 0x01 || code == 0x04
}

// How often a code rings.
fn bells_of(code: u8) -> usize
    ensures { result ≡ cond (eqb code 7) 1 0 }
{
    usize::from(code == 0x07)
}

// Each byte of the stream in its order.
// Of the port its active part is carried from byte to byte: $01 and $04 alone join it to the rest and split it off again.
pub fn execute_stream(screen: &mut Screen, p: Port, bytes: &[u8]) -> Progress
    requires { ValidPort p }
    ensures { Executed (stream p bytes.now) result.port result.bells screen.old screen.new }
{
    let home = p.home;
    let mut port = p;
    let mut active = active_of(p);
    let mut bells = 0;
    let mut rest = bytes;
    while let Some((&b, after)) = rest.split_first() {
        if active.waiting == 0 {
            if 32 <= b {
                let printed = print_codes(screen, active.view, active.marks, rest);
                active = with_drawn(active, printed.drawn);
                rest = &rest[printed.count..];
                continue;
            }
            if touches_saved(b) {
                let joined = with_active(port, active);
                port = obey_on_saved(joined, b);
                active = active_of(port);
                rest = after;
                continue;
            }
            bells += bells_of(b);
        }
        active = step(screen, home, active, b);
        rest = after;
    }
    Progress {
        port: with_active(port, active),
        bells,
    }
}

// A stream of one byte.
pub fn execute_byte(screen: &mut Screen, p: Port, b: u8) -> Progress
    requires { ValidPort p }
    ensures { Executed (stream p (b ∷ [])) result.port result.bells screen.old screen.new }
{
    execute_stream(screen, p, &[b])
}
