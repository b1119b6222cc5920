// Codes whose parameters place the cursor, the viewport or the viewport's cells.
#![tactic(auto, using(crate::proofs::Plans::plans, crate::proofs::Places::back_by), unfolding(port::specs::Codes::horizontal_scroll, port::specs::Codes::in_offset_range, port::specs::Codes::nearest_inside, port::specs::Codes::resize, port::specs::Codes::set_port_size, crate::specs::Place::offset_from))]

ghost use Rattle.std.specs.Prelude.{◌≡◌, ◌≤◌};
ghost use Rattle.rectangle.specs.Rectangles.{OnScreen};
ghost use Rattle.port.specs.Codes.{horizontal_scroll, set_vertical, set_horizontal, goto_xy, in_offset_range, nearest_inside, resize, set_port_size};
ghost use Rattle.view.specs.Plan.{effect_of};
ghost use Rattle.view.specs.Place.{offset_from};

use super::{ViewPlan, move_edit, once, still};
use port::View;
use port::state::{cursor_at, with_viewport};
use rectangle::{Motion, Rect};

// $05: a signed byte. 1 to 127 shifts right, 128 to 255 left by 256 less it.
pub fn horizontal_scroll(v: View, b: u8) -> ViewPlan<1>
    ensures { effect_of result ≡ horizontal_scroll v b }
{
    if b == 0 {
        return still(v);
    }
    if b < 128 {
        return once(v, move_edit(v, Motion::Right(b)));
    }
    once(v, move_edit(v, Motion::Left(255 - b + 1)))
}

// A parameter names a line or column by its distance from low, + 32; past the last it is the last. Below 32 it names none, and the cursor's own stays.
// A number and not a view, so that a view is changed in one place only.
fn offset_from(low: u8, high: u8, own: u8, b: u8) -> u8
    requires { low ≤ high }
    ensures { result ≡ offset_from low high own b }
{
    if b < 32 {
        return own;
    }
    low + (b - 32).min(high - low)
}

// $06: a line of the viewport + 32.
pub fn set_vertical(v: View, b: u8) -> View
    requires { OnScreen v.viewport }
    ensures { result ≡ set_vertical v b }
{
    cursor_at(
        v,
        v.column,
        offset_from(v.viewport.top, v.viewport.bottom, v.line, b),
    )
}

// $14: a column of the viewport + 32.
pub fn set_horizontal(v: View, b: u8) -> View
    requires { OnScreen v.viewport }
    ensures { result ≡ set_horizontal v b }
{
    cursor_at(
        v,
        offset_from(v.viewport.left, v.viewport.right, v.column, b),
        v.line,
    )
}

fn in_offset_range(b: u8) -> bool
    ensures { result ≡ in_offset_range b }
{
    (32 <= b) & (b <= 127)
}

// The column or line of home that is nearest to a parameter's value.
fn nearest_inside(low: u8, high: u8, b: u8) -> u8
    requires { 32 ≤ b }
    ensures { result ≡ nearest_inside low high b }
{
    (b - 32).min(high).max(low)
}

// A new viewport, with the cursor at its top left; nothing changes where it is no more than one column or line.
fn resize(v: View, rect: Rect) -> View
    ensures { result ≡ resize v rect }
{
    if (rect.left < rect.right) & (rect.top < rect.bottom) {
        with_viewport(v, rect)
    } else {
        v
    }
}

// $02: left, top, right and bottom, each + 32.
pub fn set_port_size(home: Rect, v: View, left: u8, top: u8, right: u8, bottom: u8) -> View
    ensures { result ≡ set_port_size home v left top right bottom }
{
    if (in_offset_range(left) & in_offset_range(top))
        & (in_offset_range(right) & in_offset_range(bottom))
    {
        let rect = Rect {
            left: nearest_inside(home.left, home.right, left),
            top: nearest_inside(home.top, home.bottom, top),
            right: nearest_inside(home.left, home.right, right),
            bottom: nearest_inside(home.top, home.bottom, bottom),
        };
        resize(v, rect)
    } else {
        v
    }
}

// $1E: $14 and then $06.
pub fn goto_xy(v: View, column: u8, line: u8) -> View
    requires { OnScreen v.viewport }
    ensures { result ≡ goto_xy v column line }
{
    set_vertical(set_horizontal(v, column), line)
}
