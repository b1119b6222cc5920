// The screen of paper 01, 'Screen and port': 1,920 bytes, 24 lines of 80 columns, line 0 first, column 0 first.
// The loops that read or write its cells: an edit clears, scrolls or shifts one rectangle of it, neighbouring cells are copied out and in, and a run of printing codes is stored. No other crate of the library indexes it.
#![tactic(auto)]

mod moves;

ghost use Rattle.std.specs.Prelude.{◌≡◌, ◌+◌, ◌-◌, ◌*◌, ◌≤◌, ◌<◌, min, length};
ghost use Rattle.laws.specs.Parts.{stretch, no_stretch, bytes_of, IsPart};
ghost use Rattle.rectangle.specs.Cells.{cell_index};
ghost use Rattle.rectangle.specs.Rectangles.{OnScreen, width_of, cell_at};
ghost use Rattle.charset.specs.declared.Mode.{Mode};
ghost use Rattle.charset.specs.Stored.{IsRow};
ghost use Rattle.screen.specs.Size.{is_screen};
ghost use Rattle.screen.specs.Rewrite.{Filled, Relocated, Copied};
ghost use Rattle.screen.specs.Run.{RunStored};
ghost use Rattle.rectangle.specs.Edit.{edited};

use charset::{Mode, stored_row};
use moves::copy_line;
use rectangle::{Edit, Motion, Rect, width_of};

// The cells.
pub type Screen = [u8; 1920];

// Whether lent bytes are a screen, by their number: refusal 1 of every call that takes one.
pub fn is_screen(length: usize) -> bool
    ensures { result ≡ is_screen length }
{
    length == 1920
}

// The index of a cell. A column and a line stay two numbers here and below, as they are two fields of a view and two arguments of the definitions (`cell_index`, `cell_at`); that they lie on the screen is a clause, as a view may be any.
fn cell_index(column: usize, line: usize) -> usize
    requires { (column ≤ 80) × (line ≤ 23) }
    ensures { result ≡ cell_index column line }
{
    80 * line + column
}

// One cell becomes byte.
pub fn store_cell(screen: &mut Screen, column: u8, line: u8, byte: u8)
    requires { (column ≤ 79) × (line ≤ 23) }
    ensures { screen.new ≡ edited (cell_at column line) Motion.Clear byte screen.old }
{
    let index = cell_index(column as usize, line as usize);
    screen[index] = byte;
}

// Cells of a line, from column on, are copied to the lent ones.
pub fn read_cells(screen: &Screen, column: usize, line: usize, cells: &mut [u8])
    requires { (column + length cells.old ≤ 80) × (line ≤ 23) }
    ensures { cells.new ≡ bytes_of (stretch (cell_index column line) (length cells.old)) screen.now }
{
    cells.copy_from_slice(part_of_line(screen, column, line, cells.len()));
}

// Cells of a line, from column on, become the lent ones.
pub fn write_cells(screen: &mut Screen, column: usize, line: usize, cells: &[u8])
    requires { (column + length cells.now ≤ 80) × (line ≤ 23) }
    ensures { Copied cells.now 0 (cell_index column line) (length cells.now) screen.old screen.new }
{
    let start = cell_index(column, line);
    screen[start..start + cells.len()].copy_from_slice(cells);
}

// Codes up to the first control code are stored in cells of a line, from column on, as a mode's row of the table has them. Returns how many they are.
// It is out of line, so that the compiler keeps the row's place at hand and does not make it anew for each code.
#[inline(never)]
fn store_codes(
    screen: &mut Screen,
    column: usize,
    line: usize,
    row: &[u8; 256],
    codes: &[u8],
) -> usize
    requires { (column + length codes.now ≤ 80) × (line ≤ 23) }
    ensures { (mode : Mode) → IsRow mode row.now → RunStored mode column line (length codes.now) codes.now result screen.old screen.new }
{
    let start = cell_index(column, line);
    for (n, code) in codes.iter().enumerate() {
        if *code < 32 {
            return n;
        }
        screen[start + n] = row[*code as usize];
    }
    codes.len()
}

// A run of printing codes: they are stored in cells of a line, from column on. It ends at the first control code, with the codes, or where there is no more room. Returns how many they are.
pub fn store_run(
    screen: &mut Screen,
    column: usize,
    line: usize,
    room: usize,
    mode: Mode,
    codes: &[u8],
) -> usize
    requires { (column + room ≤ 80) × (line ≤ 23) }
    ensures { RunStored mode column line room codes.now result screen.old screen.new }
{
    let most = room.min(codes.len());
    store_codes(screen, column, line, stored_row(mode), &codes[..most])
}

// Cells of a line, count of them from column on, as a part of the lent screen itself: of a slice, as a row view is a part of the host's own (`IsPart screen.entry`).
pub fn part_of_line(screen: &[u8], column: usize, line: usize, count: usize) -> &[u8]
    requires { (column + count ≤ 80) × (line ≤ 23) × (length screen.now ≡ 1920) }
    ensures { IsPart screen.entry result (stretch (cell_index column line) count) }
{
    let start = cell_index(column, line);
    let end = start + count;
    &screen[start..end]
}

// No cell, as a part of the lent screen, whose length may be any: its start.
pub fn no_cells(screen: &[u8]) -> &[u8]
    ensures { IsPart screen.entry result no_stretch }
{
    &screen[0..0]
}

// Where the rectangle's cells of a line start, and where they end.
fn places_in(rect: Rect, line: usize) -> (usize, usize)
    requires { OnScreen rect × (line ≤ 23) }
    ensures first { result.0 ≡ cell_index rect.left line }
    ensures past { result.1 ≡ cell_index rect.left line + width_of rect }
    ensures order { (result.0 < result.1) × (result.1 ≤ 1920) }
{
    let end = rect.right as usize + 1;
    (cell_index(rect.left as usize, line), cell_index(end, line))
}

// Each cell from start up to end becomes byte.
fn fill_run(screen: &mut Screen, start: usize, end: usize, byte: u8)
    requires { (start ≤ end) × (end ≤ 1920) }
    ensures { Filled start end byte screen.old screen.new }
{
    let cells = &mut screen[start..end];
    // Not `fill`: it stores the last byte apart from the others, and for a line of cells that takes longer.
    for cell in cells.iter_mut() {
        *cell = byte;
    }
}

// Every cell of the rectangle becomes fill.
pub fn clear(screen: &mut Screen, rect: Rect, fill: u8)
    requires { OnScreen rect }
    ensures { screen.new ≡ edited rect Motion.Clear fill screen.old }
{
    let below = rect.bottom as usize + 1;
    for line in (rect.top as usize)..below {
        let (first, past) = places_in(rect, line);
        fill_run(screen, first, past, fill);
    }
}

// Scrolling up a rectangle as wide as the screen: its lines are one run of cells, and move at once, in the rest of the screen from the first of them on.
fn scroll_up_at_once(screen: &mut Screen, rect: Rect, fill: u8)
    requires { OnScreen rect × (width_of rect ≡ 80) }
    ensures { screen.new ≡ edited rect Motion.Up fill screen.old }
{
    let first = cell_index(0, rect.top as usize);
    let last = cell_index(0, rect.bottom as usize);
    screen[first..].copy_within(80..last + 80 - first, 0);
    fill_run(screen, last, last + 80, fill);
}

// Scrolling up any rectangle, line by line: the second line first, so that none that moves was stored to before.
fn scroll_up_by_line(screen: &mut Screen, rect: Rect, fill: u8)
    requires { OnScreen rect }
    ensures { screen.new ≡ edited rect Motion.Up fill screen.old }
{
    let last = rect.bottom as usize;
    for line in (rect.top as usize)..last {
        copy_line(screen, rect, line + 1, line);
    }
    let (first, past) = places_in(rect, last);
    fill_run(screen, first, past, fill);
}

// The rectangle's lines move up one, and its bottom one becomes fill.
pub fn scroll_up(screen: &mut Screen, rect: Rect, fill: u8)
    requires { OnScreen rect }
    ensures { screen.new ≡ edited rect Motion.Up fill screen.old }
{
    if width_of(rect) == 80 {
        scroll_up_at_once(screen, rect, fill);
    } else {
        scroll_up_by_line(screen, rect, fill);
    }
}

// Scrolling down a rectangle as wide as the screen, at once.
// Up and down stay apart, here and below: where cells move or are filled they differ, by which lines move, where to, in which order, and which one is vacated. One function for both would ask for the direction there.
fn scroll_down_at_once(screen: &mut Screen, rect: Rect, fill: u8)
    requires { OnScreen rect × (width_of rect ≡ 80) }
    ensures { screen.new ≡ edited rect Motion.Down fill screen.old }
{
    let first = cell_index(0, rect.top as usize);
    let last = cell_index(0, rect.bottom as usize);
    screen[first..].copy_within(..last - first, 80);
    fill_run(screen, first, first + 80, fill);
}

// Scrolling down any rectangle, line by line: the last line but one first.
fn scroll_down_by_line(screen: &mut Screen, rect: Rect, fill: u8)
    requires { OnScreen rect }
    ensures { screen.new ≡ edited rect Motion.Down fill screen.old }
{
    let top = rect.top as usize;
    let bottom = rect.bottom as usize;
    for line in (top..bottom).rev() {
        copy_line(screen, rect, line, line + 1);
    }
    let (first, past) = places_in(rect, top);
    fill_run(screen, first, past, fill);
}

// The rectangle's lines move down one, and its top one becomes fill.
pub fn scroll_down(screen: &mut Screen, rect: Rect, fill: u8)
    requires { OnScreen rect }
    ensures { screen.new ≡ edited rect Motion.Down fill screen.old }
{
    if width_of(rect) == 80 {
        scroll_down_at_once(screen, rect, fill);
    } else {
        scroll_down_by_line(screen, rect, fill);
    }
}

// How far columns of the rectangle move: no further than it is wide.
fn gap_of(rect: Rect, count: u8) -> usize
    requires { OnScreen rect }
    ensures { result ≡ min count (width_of rect) }
{
    count.min(width_of(rect)) as usize
}

// The rectangle's columns move left by count, and those that none moves to become fill.
pub fn shift_left(screen: &mut Screen, rect: Rect, count: u8, fill: u8)
    requires { OnScreen rect }
    ensures { screen.new ≡ edited rect (Motion.Left count) fill screen.old }
{
    let gap = gap_of(rect, count);
    let below = rect.bottom as usize + 1;
    for line in (rect.top as usize)..below {
        let (first, past) = places_in(rect, line);
        screen[first..past].copy_within(gap.., 0);
        fill_run(screen, past - gap, past, fill);
    }
}

// The rectangle's columns move right by count, and those that none moves to become fill.
// Left and right stay apart: they differ where cells move and where they are filled, by which they are.
pub fn shift_right(screen: &mut Screen, rect: Rect, count: u8, fill: u8)
    requires { OnScreen rect }
    ensures { screen.new ≡ edited rect (Motion.Right count) fill screen.old }
{
    let gap = gap_of(rect, count);
    let below = rect.bottom as usize + 1;
    for line in (rect.top as usize)..below {
        let (first, past) = places_in(rect, line);
        screen[first..past].copy_within(..past - first - gap, gap);
        fill_run(screen, first, first + gap, fill);
    }
}

// Any edit. The functions above take its rectangle and its byte apart: each is for one motion.
pub fn apply(screen: &mut Screen, change: Edit)
    requires { OnScreen change.rect }
    ensures { screen.new ≡ edited change.rect change.motion change.fill screen.old }
{
    let Edit { rect, motion, fill } = change;
    match motion {
        Motion::Clear => clear(screen, rect, fill),
        Motion::Up => scroll_up(screen, rect, fill),
        Motion::Down => scroll_down(screen, rect, fill),
        Motion::Left(count) => shift_left(screen, rect, count, fill),
        Motion::Right(count) => shift_right(screen, rect, count, fill),
    }
}
