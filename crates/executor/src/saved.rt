// $01 and $04, the codes that touch what is saved.
ghost use Rattle.std.specs.Prelude.{◌≡◌, ◌⊎◌};
ghost use Rattle.port.specs.Step as rules;

use port::Port;
use port::state::{default_view, with_saved, with_view};

// $01.
fn push_and_reset(p: Port) -> Port
    ensures { result ≡ rules.push_and_reset p }
{
    with_view(with_saved(p, true, p.view), default_view(p))
}

// $04.
fn pop(p: Port) -> Port
    ensures { result ≡ rules.pop p }
{
    if p.hassaved {
        return with_view(p, p.saved);
    }
    with_view(p, default_view(p))
}

// The one or the other. The code stays the byte of the stream, as all codes do: the definitions (`control`) and the paper name them so.
pub fn obey_on_saved(p: Port, code: u8) -> Port
    requires { (code ≡ 1) ⊎ (code ≡ 4) }
    ensures { rules.becomes_port result ≡ rules.control p code }
{
    if code == 0x01 {
        return push_and_reset(p);
    }
    pop(p)
}
