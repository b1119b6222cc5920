// When a port is valid. The tests are joined without branches, as the definitions are, where they are no equality.
#![tactic(auto, unfolding(crate::specs::Valid::cursor_inside, crate::specs::Valid::valid_view, crate::specs::Valid::valid_saved, crate::specs::Valid::parameters, crate::specs::Valid::used_or_zero, crate::specs::Valid::unused_zero, crate::specs::Valid::count_fits, crate::specs::Valid::valid_wait, crate::specs::Valid::valid_port))]

ghost use Rattle.std.specs.Prelude.{◌≡◌, ◌<◌};
ghost use Rattle.port.specs.Valid as rules;

use super::state::zero_port;
use super::{Flags, Port, View};
use marks::within_lines;
use rectangle::{Rect, is_zero_rect, legal, within};

// How many parameters a code takes. Codes stay bytes, as the papers name them.
pub fn parameters(code: u8) -> u8
    ensures { result ≡ rules.parameters code }
{
    match code {
        0x02 => 4,
        0x05 => 1,
        0x06 => 1,
        0x10 => 1,
        0x14 => 1,
        0x15 => 1,
        0x1E => 2,
        _ => 0,
    }
}

fn cursor_inside(v: View) -> bool
    ensures { result ≡ rules.cursor_inside v }
{
    let w = v.viewport;
    ((w.left <= v.column) & (v.column <= w.right)) & ((w.top <= v.line) & (v.line <= w.bottom))
}

fn valid_view(home: Rect, v: View) -> bool
    ensures { result ≡ rules.valid_view home v }
{
    (legal(v.viewport) & within(v.viewport, home)) & cursor_inside(v)
}

// Every field 0 or false. By its parts and not by `==`, so that the rectangle's own test is the one that judges a port.
fn is_zero_view(v: View) -> bool
    ensures { result ≡ rules.is_zero_view v }
{
    (is_zero_rect(v.viewport) & ((v.column == 0) & (v.line == 0)))
        & ((v.flags == Flags::default()) & (!v.inverse & !v.mousetext))
}

fn valid_saved(home: Rect, has: bool, v: View) -> bool
    ensures { result ≡ rules.valid_saved home has v }
{
    if has {
        return valid_view(home, v);
    }
    is_zero_view(v)
}

fn used_or_zero(gathered: [u8; 4], count: u8, i: u8) -> bool
    requires { i < 4 }
    ensures { result ≡ rules.used_or_zero gathered count i }
{
    (i < count) | (gathered[i as usize] == 0)
}

// Place by place: `gathered.iter().skip(count as usize).all(|&b| b == 0)` took 32 instructions, and this 24.
fn unused_zero(gathered: [u8; 4], count: u8) -> bool
    ensures { result ≡ rules.unused_zero gathered count }
{
    (used_or_zero(gathered, count, 0) & used_or_zero(gathered, count, 1))
        & (used_or_zero(gathered, count, 2) & used_or_zero(gathered, count, 3))
}

fn count_fits(code: u8, count: u8) -> bool
    ensures { result ≡ rules.count_fits code count }
{
    if code == 0 {
        return count == 0;
    }
    count < parameters(code)
}

fn valid_wait(code: u8, gathered: [u8; 4], count: u8) -> bool
    ensures { result ≡ rules.valid_wait code gathered count }
{
    count_fits(code, count) & unused_zero(gathered, count)
}

// Inlined, so that a port that is judged where it is kept in registers is not copied to memory for each byte.
#[inline(always)]
pub fn valid_port(p: Port) -> bool
    ensures { result ≡ rules.valid_port p }
{
    (legal(p.home) & valid_view(p.home, p.view))
        & (valid_saved(p.home, p.hassaved, p.saved)
            & (valid_wait(p.waiting, p.gathered, p.count) & within_lines(p.marks, p.home)))
}

// Every field 0 or false.
pub fn is_zero_port(p: Port) -> bool
    ensures { result ≡ rules.is_zero_port p }
{
    p == zero_port()
}
