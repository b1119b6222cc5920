// The zero state, a setter for each part, the default and the fresh state. Nothing else stores to a field of a port or a view.
// The setters assign, and are no `View { .. v }`: that copies field by field, and the one-byte call took 30 instructions more with it.
ghost use Rattle.std.specs.Prelude.{◌≡◌};
ghost use Rattle.port.specs.State as rules;

use super::{Flags, Port, View};
use rectangle::Rect;

// All five flags on or off.
fn all_flags(on: bool) -> Flags
    ensures { result ≡ rules.all_flags on }
{
    Flags {
        dle: on,
        scroll: on,
        wrap: on,
        lf: on,
        advance: on,
    }
}

// Every field 0 or false.
pub(crate) fn zero_view() -> View
    ensures { result ≡ rules.zero_view }
{
    View::default()
}

// Every field 0 or false.
pub fn zero_port() -> Port
    ensures { result ≡ rules.zero_port }
{
    Port::default()
}

// The view with another viewport, and the cursor at its top left.
pub fn with_viewport(mut v: View, rect: Rect) -> View
    ensures { result ≡ rules.with_viewport v rect }
{
    v.viewport = rect;
    v.column = rect.left;
    v.line = rect.top;
    v
}

// The view with its cursor elsewhere.
pub fn cursor_at(mut v: View, column: u8, line: u8) -> View
    ensures { result ≡ rules.cursor_at v column line }
{
    v.column = column;
    v.line = line;
    v
}

pub fn with_flags(mut v: View, flags: Flags) -> View
    ensures { result ≡ rules.with_flags v flags }
{
    v.flags = flags;
    v
}

pub fn with_modes(mut v: View, inverse: bool, mousetext: bool) -> View
    ensures { result ≡ rules.with_modes v inverse mousetext }
{
    v.inverse = inverse;
    v.mousetext = mousetext;
    v
}

fn with_home(mut p: Port, home: Rect) -> Port
    ensures { result ≡ rules.with_home p home }
{
    p.home = home;
    p
}

pub fn with_view(mut p: Port, view: View) -> Port
    ensures { result ≡ rules.with_view p view }
{
    p.view = view;
    p
}

// Whether there is a saved view, and that view.
pub fn with_saved(mut p: Port, hassaved: bool, saved: View) -> Port
    ensures { result ≡ rules.with_saved p hassaved saved }
{
    p.hassaved = hassaved;
    p.saved = saved;
    p
}

// The waiting code, and the parameters gathered so far.
pub fn with_wait(mut p: Port, waiting: u8, gathered: [u8; 4], count: u8) -> Port
    ensures { result ≡ rules.with_wait p waiting gathered count }
{
    p.waiting = waiting;
    p.gathered = gathered;
    p.count = count;
    p
}

pub fn with_marks(mut p: Port, marks: u32) -> Port
    ensures { result ≡ rules.with_marks p marks }
{
    p.marks = marks;
    p
}

// The port after drawing: its next view and its marks.
pub fn with_drawn(mut p: Port, view: View, marks: u32) -> Port
    ensures { result ≡ rules.with_drawn p view marks }
{
    p.view = view;
    p.marks = marks;
    p
}

// The viewport is home, the cursor top left, all flags on, normal text, MouseText off.
pub fn default_view(p: Port) -> View
    ensures { result ≡ rules.default_view p }
{
    let placed = with_viewport(zero_view(), p.home);
    with_modes(with_flags(placed, all_flags(true)), false, false)
}

// The default state, with nothing saved, nothing waiting and no line marked.
pub fn fresh_port(home: Rect) -> Port
    ensures { result ≡ rules.fresh_port home }
{
    let p = with_home(zero_port(), home);
    with_view(p, default_view(p))
}
