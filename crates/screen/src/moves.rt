// Lines of a rectangle that is not as wide as the screen: what scrolling does with them.
ghost use Rattle.std.specs.Prelude.{◌≡◌, ◌+◌, ◌-◌, ◌*◌, ◌≤◌, ◌<◌};
ghost use Rattle.rectangle.specs.Cells.{column_of, cell_index};
ghost use Rattle.rectangle.specs.Rectangles.{OnScreen, width_of};
ghost use Rattle.screen.specs.Rewrite.{Relocated, Copied};

use super::{Screen, cell_index, places_in};
use rectangle::Rect;

// A chunk of cells, from place from on, is read and then stored from place to on.
fn copy_chunk<const SIZE: usize>(screen: &mut Screen, from: usize, to: usize)
    requires { (from + SIZE ≤ 1920) × (to + SIZE ≤ 1920) }
    ensures { Copied screen.old from to SIZE screen.old screen.new }
{
    let mut chunk = [0; SIZE];
    chunk.copy_from_slice(&screen[from..from + SIZE]);
    screen[to..to + SIZE].copy_from_slice(&chunk);
}

// Cells of one line, count of them from place from on, are copied to the same columns of another, in chunks. The last chunk ends where the cells do: it may copy some of them again, from a line that nothing was stored to.
fn copy_chunks<const SIZE: usize>(screen: &mut Screen, from: usize, to: usize, count: usize)
    requires { (0 < SIZE) × (SIZE ≤ count) × (from < 1920) × (to < 1920) × (column_of from ≡ column_of to) × (column_of from + count ≤ 80) }
    ensures { Copied screen.old from to count screen.old screen.new }
{
    let last = count - SIZE;
    for done in (0..last).step_by(SIZE) {
        copy_chunk::<SIZE>(screen, from + done, to + done);
    }
    copy_chunk::<SIZE>(screen, from + last, to + last);
}

// The rectangle's cells of line target become those of line source: in chunks of 16, of 8 or 4 if they are fewer, and fewer than 4 one by one.
// A chunk whose size the compiler knows is a load and a store, where `copy_within` for any number of cells would take longer than the move.
pub fn copy_line(screen: &mut Screen, rect: Rect, source: usize, target: usize)
    requires { OnScreen rect × (source ≤ 23) × (target ≤ 23) }
    ensures { Relocated (cell_index rect.left target) (cell_index rect.left target + width_of rect) (λ i. i + 80 * source - 80 * target) screen.old screen.new }
{
    let (from, past) = places_in(rect, source);
    let to = cell_index(rect.left as usize, target);
    match past - from {
        count @ 16.. => copy_chunks::<16>(screen, from, to, count),
        count @ 8.. => copy_chunks::<8>(screen, from, to, count),
        count @ 4.. => copy_chunks::<4>(screen, from, to, count),
        count => copy_chunks::<1>(screen, from, to, count),
    }
}
