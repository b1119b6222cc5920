// Control codes and the parameters of commands: each code has an arm, which asks `view` what the code does and draws it.
#![tactic(auto)]

pub mod active;

ghost use Rattle.std.specs.Prelude.{◌<◌, ◌≡◌};
ghost use Rattle.rectangle.specs.Edit.{draw};
ghost use Rattle.marks.specs.Marks.{marked_by};
ghost use Rattle.charset.specs.Stored.{ControlCode};
ghost use Rattle.port.specs.Step as rules;
ghost use Rattle.view.specs.Plan.{effect_of};
ghost use Rattle.printer.specs.Execute.{AllOnScreen};
ghost use Rattle.printer.specs.Print.{Placed};
ghost use Rattle.control.specs.Active.{with_drawn};
ghost use Rattle.control.specs.Obey.{Ready, Obeys, ObeysAt};

use active::{Active, gather_one, wait_for, with_drawn, with_view};
use charset::stored_byte;
use port::valid::parameters;
use printer::draw::{Drawn, draw_plan};
use printer::print_spaces;
use rectangle::Rect;
use screen::Screen;
use view::{
    ViewPlan, cursor, disable_mousetext, enable_mousetext, erase, mode_of, place, scroll_down,
    scroll_up, set_cursor_movement, set_inverse, set_normal, space_count,
};

// What a code plans is drawn.
fn planned<const N: usize>(screen: &mut Screen, a: Active, to: ViewPlan<N>) -> Active
    requires { AllOnScreen (effect_of to).edits }
    ensures { (result ≡ with_drawn a (effect_of to.entry).view (marked_by a.marks (effect_of to.entry).edits)) × (screen.new ≡ draw (effect_of to.entry).edits screen.old) }
{
    with_drawn(a, draw_plan(screen, a.marks, to))
}

// A control code but $01 and $04, which touch what is saved: each by its own arm, and the last is $1F. Codes stay bytes of the stream, here and below, as the definitions and the papers name them (`rules.control`). The bell of $07 is the caller's to count.
fn control(screen: &mut Screen, a: Active, code: u8) -> Active
    requires { Placed a.view × ControlCode code × (code ≡ 1 → ⊥) × (code ≡ 4 → ⊥) }
    ensures { Obeys (λ p. rules.control p code) a result screen.old screen.new }
{
    let v = a.view;
    match code {
        0x00 => a,
        0x02 => wait_for(a, 0x02),
        0x03 => planned(screen, a, erase::clear_from_line_start(v)),
        0x05 => wait_for(a, 0x05),
        0x06 => wait_for(a, 0x06),
        0x07 => a,
        0x08 => planned(screen, a, cursor::backspace(v)),
        0x09 => a,
        0x0A => planned(screen, a, cursor::line_feed(v)),
        0x0B => planned(screen, a, erase::clear_to_port_end(v)),
        0x0C => planned(screen, a, erase::clear_port_and_home(v)),
        0x0D => planned(screen, a, cursor::carriage_return(v)),
        0x0E => with_view(a, set_normal(v)),
        0x0F => with_view(a, set_inverse(v)),
        0x10 => wait_for(a, 0x10),
        0x11 => a,
        0x12 => a,
        0x13 => planned(screen, a, erase::clear_from_port_start(v)),
        0x14 => wait_for(a, 0x14),
        0x15 => wait_for(a, 0x15),
        0x16 => planned(screen, a, scroll_down(v)),
        0x17 => planned(screen, a, scroll_up(v)),
        0x18 => with_view(a, disable_mousetext(v)),
        0x19 => with_view(a, cursor::home_cursor(v)),
        0x1A => planned(screen, a, erase::clear_line(v)),
        0x1B => with_view(a, enable_mousetext(v)),
        0x1C => planned(screen, a, cursor::move_cursor_right(v)),
        0x1D => planned(screen, a, erase::clear_to_line_end(v)),
        0x1E => wait_for(a, 0x1E),
        _ => planned(screen, a, cursor::move_cursor_up(v)),
    }
}

// The waiting command with its last parameter b. The seventh code that takes parameters is $1E.
fn perform(screen: &mut Screen, home: Rect, a: Active, b: u8) -> Active
    requires { Placed a.view }
    ensures { ObeysAt home (λ p. rules.perform p a.waiting b) a result screen.old screen.new }
{
    let v = a.view;
    let gathered = a.gathered;
    let done = wait_for(a, 0);
    match a.waiting {
        0x02 => with_view(
            done,
            place::set_port_size(home, v, gathered[0], gathered[1], gathered[2], b),
        ),
        0x05 => planned(screen, done, place::horizontal_scroll(v, b)),
        0x06 => with_view(done, place::set_vertical(v, b)),
        0x10 => {
            let space = stored_byte(mode_of(v), 0x20);
            let at = Drawn {
                view: v,
                marks: done.marks,
            };
            with_drawn(done, print_spaces(screen, at, space, space_count(v, b)))
        }
        0x14 => with_view(done, place::set_horizontal(v, b)),
        0x15 => with_view(done, set_cursor_movement(v, b)),
        _ => with_view(done, place::goto_xy(v, gathered[0], b)),
    }
}

// A byte that is a parameter of the waiting command.
fn parameter(screen: &mut Screen, home: Rect, a: Active, b: u8) -> Active
    requires { Placed a.view × (a.count < 4) }
    ensures { ObeysAt home (λ p. rules.parameter p b) a result screen.old screen.new }
{
    if a.count + 1 < parameters(a.waiting) {
        return gather_one(a, b);
    }
    perform(screen, home, a, b)
}

// A parameter, or a control code but $01 and $04.
pub fn step(screen: &mut Screen, home: Rect, a: Active, b: u8) -> Active
    requires { Ready a b }
    ensures { ObeysAt home (λ p. rules.step p b) a result screen.old screen.new }
{
    if a.waiting == 0 {
        return control(screen, a, b);
    }
    parameter(screen, home, a, b)
}
