// Codes that move the cursor and take no parameter, and how printing moves it.
#![tactic(auto, using(crate::proofs::Plans::plans, crate::proofs::Moves::and_below), unfolding(port::specs::Codes::move_cursor_right, port::specs::Codes::backspace, port::specs::Codes::line_feed, port::specs::Codes::move_cursor_up, port::specs::Codes::carriage_return, port::specs::Codes::feed_if_lf, port::specs::Codes::advance))]

ghost use Rattle.std.specs.Prelude.{◌≡◌};
ghost use Rattle.port.specs.Codes.{move_cursor_right, backspace, line_feed, move_cursor_up, carriage_return, home_cursor, advance};
ghost use Rattle.view.specs.Plan.{effect_of};

use super::{ViewPlan, move_edit, once, still};
use port::View;
use port::state::cursor_at;
use rectangle::Motion;

// $1C.
pub fn move_cursor_right(v: View) -> ViewPlan<1>
    ensures { effect_of result ≡ move_cursor_right v }
{
    if v.column < v.viewport.right {
        return still(cursor_at(v, v.column + 1, v.line));
    }
    if v.flags.wrap & (v.line < v.viewport.bottom) {
        return still(cursor_at(v, v.viewport.left, v.line + 1));
    }
    if v.flags.wrap & v.flags.scroll {
        return once(
            cursor_at(v, v.viewport.left, v.line),
            move_edit(v, Motion::Up),
        );
    }
    still(v)
}

// $08.
pub fn backspace(v: View) -> ViewPlan<1>
    ensures { effect_of result ≡ backspace v }
{
    if v.viewport.left < v.column {
        return still(cursor_at(v, v.column - 1, v.line));
    }
    if v.flags.wrap & (v.viewport.top < v.line) {
        return still(cursor_at(v, v.viewport.right, v.line - 1));
    }
    if v.flags.wrap & v.flags.scroll {
        return once(
            cursor_at(v, v.viewport.right, v.line),
            move_edit(v, Motion::Down),
        );
    }
    still(v)
}

// $0A.
pub fn line_feed(v: View) -> ViewPlan<1>
    ensures { effect_of result ≡ line_feed v }
{
    if v.line < v.viewport.bottom {
        return still(cursor_at(v, v.column, v.line + 1));
    }
    if v.flags.scroll {
        return once(v, move_edit(v, Motion::Up));
    }
    still(v)
}

// $1F.
pub fn move_cursor_up(v: View) -> ViewPlan<1>
    ensures { effect_of result ≡ move_cursor_up v }
{
    if v.viewport.top < v.line {
        return still(cursor_at(v, v.column, v.line - 1));
    }
    if v.flags.scroll {
        return once(v, move_edit(v, Motion::Down));
    }
    still(v)
}

// $0D.
pub fn carriage_return(v: View) -> ViewPlan<1>
    ensures { effect_of result ≡ carriage_return v }
{
    let start = cursor_at(v, v.viewport.left, v.line);
    if v.flags.lf {
        return line_feed(start);
    }
    still(start)
}

// $19: the cursor to the top left.
pub fn home_cursor(v: View) -> View
    ensures { result ≡ home_cursor v }
{
    cursor_at(v, v.viewport.left, v.viewport.top)
}

// What $1C does, if advance: what printing does after it stored a byte.
pub fn advance(v: View) -> ViewPlan<1>
    ensures { effect_of result ≡ advance v }
{
    if v.flags.advance {
        return move_cursor_right(v);
    }
    still(v)
}
