// What each code of paper 01 does to a view, as a plan: the next view and the edits of the screen, at most two. Printing moves the cursor as a code does.
// No function here sees a screen: what a port does next never depends on a cell.
#![tactic(auto, using(crate::proofs::Bits::low_bit, crate::proofs::Places::counted, crate::proofs::Places::counted_none), unfolding(port::specs::Codes::mode_of))]

pub mod cursor;
pub mod erase;
pub mod place;

ghost use Rattle.std.specs.Prelude.{◌≡◌};
ghost use Rattle.port.specs.Effect.{fill_byte, move_edit};
ghost use Rattle.port.specs.Codes.{mode_of, set_normal, set_inverse, enable_mousetext, disable_mousetext, set_cursor_movement, scroll_down, scroll_up};
ghost use Rattle.view.specs.Plan.{effect_of, still, once, plan};
ghost use Rattle.view.specs.Place.{space_count};

use charset::Mode;
use port::state::{with_flags, with_modes};
use port::{Flags, View};
use rectangle::{Edit, Motion};

// The next view, with at most N edits in their order. A plan of any view, and no type of valid ones: that its edits lie on the screen is a clause of what draws it (`AllOnScreen`).
// A function for each code, though some differ in a constant: its contract is that code's definition.
#[derive(Clone, Copy, PartialEq, Eq, Debug)]
pub struct ViewPlan<const N: usize> {
    pub view: View,
    pub edits: [Option<Edit>; N],
}

pub fn still(view: View) -> ViewPlan<1>
    ensures { result ≡ still view }
{
    ViewPlan {
        view,
        edits: [None],
    }
}

pub fn once(view: View, edit: Edit) -> ViewPlan<1>
    ensures { result ≡ once view edit }
{
    ViewPlan {
        view,
        edits: [Some(edit)],
    }
}

// An edit, and perhaps another after it.
pub fn plan(view: View, first: Edit, second: Option<Edit>) -> ViewPlan<2>
    ensures { result ≡ plan view first second }
{
    ViewPlan {
        view,
        edits: [Some(first), second],
    }
}

// The byte that erased and vacated cells get: a blank.
pub fn fill_byte(v: View) -> u8
    ensures { result ≡ fill_byte v }
{
    0xA0
}

// The viewport's cells move.
pub fn move_edit(v: View, motion: Motion) -> Edit
    ensures { result ≡ move_edit v motion }
{
    Edit {
        rect: v.viewport,
        motion,
        fill: fill_byte(v),
    }
}

// $16.
pub fn scroll_down(v: View) -> ViewPlan<1>
    ensures { effect_of result ≡ scroll_down v }
{
    once(v, move_edit(v, Motion::Down))
}

// $17.
pub fn scroll_up(v: View) -> ViewPlan<1>
    ensures { effect_of result ≡ scroll_up v }
{
    once(v, move_edit(v, Motion::Up))
}

// The mode that a printing code is stored in: MouseText has no effect in normal mode.
pub fn mode_of(v: View) -> Mode
    ensures { result ≡ mode_of v }
{
    if v.inverse {
        if v.mousetext {
            return Mode::MouseText;
        }
        return Mode::Inverse;
    }
    Mode::Normal
}

// $0E.
pub fn set_normal(v: View) -> View
    ensures { result ≡ set_normal v }
{
    with_modes(v, false, v.mousetext)
}

// $0F.
pub fn set_inverse(v: View) -> View
    ensures { result ≡ set_inverse v }
{
    with_modes(v, true, v.mousetext)
}

// $1B.
pub fn enable_mousetext(v: View) -> View
    ensures { result ≡ enable_mousetext v }
{
    with_modes(v, v.inverse, true)
}

// $18.
pub fn disable_mousetext(v: View) -> View
    ensures { result ≡ disable_mousetext v }
{
    with_modes(v, v.inverse, false)
}

// $10: how many spaces are printed.
pub fn space_count(v: View, b: u8) -> u8
    ensures { result ≡ space_count v b }
{
    if v.flags.dle & (32 <= b) {
        return b - 32;
    }
    0
}

// $15: bit 4 is DLE, then scroll, wrap and LF, and bit 0 is advance. The top three bits are dropped.
pub fn set_cursor_movement(v: View, b: u8) -> View
    ensures { result ≡ set_cursor_movement v b }
{
    let flags = Flags {
        dle: (b >> 4) & 1 == 1,
        scroll: (b >> 3) & 1 == 1,
        wrap: (b >> 2) & 1 == 1,
        lf: (b >> 1) & 1 == 1,
        advance: b & 1 == 1,
    };
    with_flags(v, flags)
}
