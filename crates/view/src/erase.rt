// Codes that erase cells of the viewport.
#![tactic(auto, using(crate::proofs::Plans::plans), unfolding(port::specs::Codes::clear_from_port_start, port::specs::Codes::clear_lines_above, port::specs::Codes::clear_to_port_end, port::specs::Codes::clear_lines_below))]

ghost use Rattle.std.specs.Prelude.{◌≡◌};
ghost use Rattle.port.specs.Effect.{erase_edit, line_span, view_lines};
ghost use Rattle.port.specs.Codes.{clear_from_line_start, clear_to_line_end, clear_line, clear_from_port_start, clear_to_port_end, clear_port_and_home};
ghost use Rattle.view.specs.Plan.{effect_of};

use super::{ViewPlan, fill_byte, once, plan};
use port::View;
use port::state::cursor_at;
use rectangle::{Edit, Motion, Rect};

// Columns of the cursor's line.
fn line_span(v: View, left: u8, right: u8) -> Rect
    ensures { result ≡ line_span v left right }
{
    Rect {
        left,
        top: v.line,
        right,
        bottom: v.line,
    }
}

// Whole lines of the viewport.
fn view_lines(v: View, top: u8, bottom: u8) -> Rect
    ensures { result ≡ view_lines v top bottom }
{
    Rect {
        left: v.viewport.left,
        top,
        right: v.viewport.right,
        bottom,
    }
}

// A rectangle of the viewport is erased.
fn erase_edit(v: View, rect: Rect) -> Edit
    ensures { result ≡ erase_edit v rect }
{
    Edit {
        rect,
        motion: Motion::Clear,
        fill: fill_byte(v),
    }
}

// $03: from the left edge to the cursor.
pub fn clear_from_line_start(v: View) -> ViewPlan<1>
    ensures { effect_of result ≡ clear_from_line_start v }
{
    once(v, erase_edit(v, line_span(v, v.viewport.left, v.column)))
}

// $1D: from the cursor to the right edge.
pub fn clear_to_line_end(v: View) -> ViewPlan<1>
    ensures { effect_of result ≡ clear_to_line_end v }
{
    once(v, erase_edit(v, line_span(v, v.column, v.viewport.right)))
}

// $1A: the cursor's line.
pub fn clear_line(v: View) -> ViewPlan<1>
    ensures { effect_of result ≡ clear_line v }
{
    once(
        v,
        erase_edit(v, line_span(v, v.viewport.left, v.viewport.right)),
    )
}

// $13: the lines above the cursor's, and its own up to the cursor.
pub fn clear_from_port_start(v: View) -> ViewPlan<2>
    ensures { effect_of result ≡ clear_from_port_start v }
{
    let own = erase_edit(v, line_span(v, v.viewport.left, v.column));
    if v.viewport.top < v.line {
        let above = erase_edit(v, view_lines(v, v.viewport.top, v.line - 1));
        return plan(v, above, Some(own));
    }
    plan(v, own, None)
}

// $0B: the cursor's line from the cursor on, and the lines below it.
pub fn clear_to_port_end(v: View) -> ViewPlan<2>
    ensures { effect_of result ≡ clear_to_port_end v }
{
    let own = erase_edit(v, line_span(v, v.column, v.viewport.right));
    if v.line < v.viewport.bottom {
        let below = erase_edit(v, view_lines(v, v.line + 1, v.viewport.bottom));
        return plan(v, own, Some(below));
    }
    plan(v, own, None)
}

// $0C: the whole viewport, and the cursor to its top left.
pub fn clear_port_and_home(v: View) -> ViewPlan<1>
    ensures { effect_of result ≡ clear_port_and_home v }
{
    once(
        cursor_at(v, v.viewport.left, v.viewport.top),
        erase_edit(v, v.viewport),
    )
}
