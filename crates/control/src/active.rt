// The active part of a port: its view, its marks and the command that waits, which bytes touch. Home and what is saved stand apart from it, so that a loop over bytes need not carry them.
// The setters assign, and are no `Active { .. a }`, which copies field by field: an addressed update took 3.3 instructions a byte more with it.
ghost use Rattle.std.specs.Prelude.{◌≡◌, ◌<◌};
ghost use Rattle.control.specs.Active as rules;

use port::{Port, View, state};
use printer::draw::Drawn;

// Waiting, gathered and count are the port's, in the form that paper 01 asks for (`Port`). The setters are apart from a port's: each has a definition of its own.
// The marks stand first: a word behind the view's odd number of bytes makes each byte slower.
#[derive(Clone, Copy, PartialEq, Eq, Debug)]
pub struct Active {
    pub marks: u32,
    pub view: View,
    pub waiting: u8,
    pub gathered: [u8; 4],
    pub count: u8,
}

pub fn active_of(p: Port) -> Active
    ensures { result ≡ rules.active_of p }
{
    let gathered = p.gathered;
    Active {
        marks: p.marks,
        view: p.view,
        waiting: p.waiting,
        gathered,
        count: p.count,
    }
}

// The port with another active part.
pub fn with_active(p: Port, a: Active) -> Port
    ensures { result ≡ rules.with_active p a }
{
    state::with_wait(
        state::with_drawn(p, a.view, a.marks),
        a.waiting,
        a.gathered,
        a.count,
    )
}

pub fn with_view(mut a: Active, view: View) -> Active
    ensures { result ≡ rules.with_view a view }
{
    a.view = view;
    a
}

// The view and the marks that drawing leaves.
pub fn with_drawn(mut a: Active, drawn: Drawn) -> Active
    ensures { result ≡ rules.with_drawn a drawn.view drawn.marks }
{
    a.view = drawn.view;
    a.marks = drawn.marks;
    a
}

// The code waits, with nothing gathered; 0 waits for none.
pub fn wait_for(mut a: Active, code: u8) -> Active
    ensures { result ≡ rules.wait_for a code }
{
    a.waiting = code;
    a.gathered = [0; 4];
    a.count = 0;
    a
}

// One parameter more is gathered.
pub fn gather_one(mut a: Active, b: u8) -> Active
    requires { a.count < 4 }
    ensures { result ≡ rules.gather_one a b }
{
    a.gathered[a.count as usize] = b;
    a.count = a.count + 1;
    a
}
