// Draws what `view` plans: the edits on the screen, whose lines are marked, and then the view that the plan leaves.
ghost use Rattle.std.specs.Prelude.{◌≡◌};
ghost use Rattle.rectangle.specs.Edit.{draw};
ghost use Rattle.marks.specs.Marks.{marked_by};
ghost use Rattle.view.specs.Plan.{change_list, effect_of};
ghost use Rattle.printer.specs.Execute.{AllOnScreen, Drew};

use marks::mark;
use port::View;
use rectangle::Edit;
use screen::{Screen, apply};
use view::ViewPlan;

// What drawing leaves besides the cells: the next view, and the marks.
#[derive(Clone, Copy, PartialEq, Eq, Debug)]
pub struct Drawn {
    pub view: View,
    pub marks: u32,
}

// An edit, or none. Returns the marks with those of its lines.
fn draw_change(screen: &mut Screen, marks: u32, change: Option<Edit>) -> u32
    requires { AllOnScreen (change_list change) }
    ensures { (result ≡ marked_by marks (change_list change)) × (screen.new ≡ draw (change_list change) screen.old) }
{
    match change {
        None => marks,
        Some(edit) => {
            apply(screen, edit);
            mark(marks, edit.rect.top, edit.rect.bottom)
        }
    }
}

// The edits in their order.
pub fn draw_plan<const N: usize>(screen: &mut Screen, marks: u32, to: ViewPlan<N>) -> Drawn
    requires { AllOnScreen (effect_of to).edits }
    ensures { Drew (effect_of to.entry) marks result.view result.marks screen.old screen.new }
{
    let mut after = marks;
    for change in to.edits {
        after = draw_change(screen, after, change);
    }
    Drawn {
        view: to.view,
        marks: after,
    }
}
