// Paper 01, 'Blocks, rows, one byte': the cells of a rectangle as a block, and one row of it.
// A block is a width byte, a height byte, then the cells line by line.
#![tactic(auto)]

ghost use Rattle.std.specs.Prelude.{◌≡◌, ◌++◌, ◌+◌, ◌*◌, ◌≤◌, ◌<◌, length, drop};
ghost use Rattle.laws.specs.Parts.{IsPart};
ghost use Rattle.rectangle.specs.Rectangles.{OnScreen, width_of, height_of};
ghost use Rattle.block.specs.Block.{block_length, block_fits, row_stretch, block_of, restored};

use rectangle::{Rect, height_of, width_of};
use screen::{Screen, part_of_line, read_cells, write_cells};

// The bytes of a block: 2 + width x height.
pub fn block_length(rect: Rect) -> usize
    requires { OnScreen rect }
    ensures { result ≡ block_length rect }
{
    2 + (width_of(rect) as usize) * (height_of(rect) as usize)
}

// Whether a block's length and first two bytes are the rectangle's.
pub fn block_fits(rect: Rect, block: &[u8]) -> bool
    requires { OnScreen rect }
    ensures { result ≡ block_fits rect block.now }
{
    if block.len() == block_length(rect) {
        return (block[0] == width_of(rect)) & (block[1] == height_of(rect));
    }
    false
}

// A row of the rectangle, 0 at the top: that stretch of the lent screen itself, which is a slice, as the host's own is (`IsPart screen.entry`).
pub fn row_stretch(screen: &[u8], rect: Rect, row: usize) -> &[u8]
    requires { OnScreen rect × (row < height_of rect) × (length screen.now ≡ 1920) }
    ensures { IsPart screen.entry result (row_stretch rect row) }
{
    part_of_line(
        screen,
        rect.left as usize,
        rect.top as usize + row,
        width_of(rect) as usize,
    )
}

// Where a row of the rectangle starts in a block, whose first two bytes are width and height.
fn row_place(rect: Rect, row: usize) -> usize
    requires { OnScreen rect × (row < height_of rect) }
    ensures place { result ≡ 2 + row * width_of rect }
    ensures in_block { result + width_of rect ≤ block_length rect }
{
    2 + row * (width_of(rect) as usize)
}

// The cells of the rectangle fill the front of the block; the bytes beyond stay.
pub fn copy_out(screen: &Screen, rect: Rect, block: &mut [u8])
    requires { OnScreen rect × (block_length rect ≤ length block.old) }
    ensures { block.new ≡ block_of rect screen.now ++ drop (block_length rect) block.old }
{
    let columns = width_of(rect);
    let lines = height_of(rect);
    block[0] = columns;
    block[1] = lines;
    let left = rect.left as usize;
    let top = rect.top as usize;
    // Not by chunks of the block: of chunks that are written a proof knows their number, and not what they end as.
    for row in 0..(lines as usize) {
        let place = row_place(rect, row);
        let cells = &mut block[place..place + columns as usize];
        read_cells(screen, left, top + row, cells);
    }
}

// The cells of the rectangle become those of the block.
pub fn copy_in(screen: &mut Screen, rect: Rect, block: &[u8])
    requires { OnScreen rect × (length block.now ≡ block_length rect) }
    ensures { screen.new ≡ restored rect block.now screen.old }
{
    let columns = width_of(rect) as usize;
    let lines = height_of(rect) as usize;
    let left = rect.left as usize;
    let top = rect.top as usize;
    // The mirror of `copy_out`, by the same places: chunks of the block would read alike, but be another proof.
    for row in 0..lines {
        let place = row_place(rect, row);
        write_cells(screen, left, top + row, &block[place..place + columns]);
    }
}
