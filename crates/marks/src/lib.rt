// Line marks of request 02: which lines of the screen were stored to since the marks were last taken. Line r is bit r of a number, line 0 the lowest.
// Lines are handed in as two numbers: a printed byte has a line and no rectangle.
#![tactic(auto)]

ghost use Rattle.std.specs.Prelude.{◌≡◌, ◌^◌, ◌≤◌, ◌<◌};
ghost use Rattle.marks.specs.Marks as rules;

use rectangle::{Rect, legal};

// The marks of the lines from top to bottom.
fn line_marks(top: u8, bottom: u8) -> u32
    requires { (top ≤ bottom) × (bottom ≤ 23) }
    ensures { result ≡ rules.line_marks top bottom }
{
    (2u32 << bottom) - (1u32 << top)
}

// The marks, with the lines from top to bottom.
pub fn mark(marks: u32, top: u8, bottom: u8) -> u32
    requires { (top ≤ bottom) × (bottom ≤ 23) }
    ensures { result ≡ rules.marked marks top bottom }
{
    marks | line_marks(top, bottom)
}

// Every mark lies in the lines of a legal rectangle.
pub fn within_lines(marks: u32, rect: Rect) -> bool
    ensures { result ≡ rules.within_lines marks rect }
{
    if legal(rect) {
        let lines = line_marks(rect.top, rect.bottom);
        return marks | lines == lines;
    }
    false
}

// How many lines are marked.
pub fn count(marks: u32) -> usize
    requires { marks < 2 ^ 24 }
    ensures { result ≡ rules.line_count marks }
{
    marks.count_ones() as usize
}
