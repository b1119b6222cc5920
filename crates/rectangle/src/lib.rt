// Rectangles of the screen of paper 01, 'Screen and port', and edits of them. What an edit makes of the 1,920 cells is defined here; the loops that carry it out are in `screen`.
// The tests are joined without branches, as the definitions are, where they are no equality.
#![tactic(auto)]

ghost use Rattle.std.specs.Prelude.{◌≡◌};
ghost use Rattle.rectangle.specs.Rectangles as rules;

// A rectangle of cells. All four edges are inclusive.
// Of any values, as a host hands them in (`legal` judges a pane, refusal 4, and `valid_port` a viewport): so that it lies on the screen is a clause, `OnScreen`, of what reads or writes its cells, and no type.
#[derive(Clone, Copy, PartialEq, Eq, Debug, Default)]
pub struct Rect {
    pub left: u8,
    pub top: u8,
    pub right: u8,
    pub bottom: u8,
}

// How the cells of a rectangle move. A cell that none moves to is vacated.
#[derive(Clone, Copy, PartialEq, Eq, Debug)]
pub enum Motion {
    // All are vacated.
    Clear,
    // Lines move by one.
    Up,
    Down,
    // Columns move by a number.
    Left(u8),
    Right(u8),
}

// A change of one rectangle: its cells move, and the vacated ones become fill.
#[derive(Clone, Copy, PartialEq, Eq, Debug)]
pub struct Edit {
    pub rect: Rect,
    pub motion: Motion,
    pub fill: u8,
}

// The number of columns.
pub fn width_of(rect: Rect) -> u8
    requires { rules.OnScreen rect }
    ensures { result ≡ rules.width_of rect }
{
    rect.right - rect.left + 1
}

// The number of lines.
pub fn height_of(rect: Rect) -> u8
    requires { rules.OnScreen rect }
    ensures { result ≡ rules.height_of rect }
{
    rect.bottom - rect.top + 1
}

// At least two columns and two lines, on the screen.
pub fn legal(r: Rect) -> bool
    ensures { result ≡ rules.legal r }
{
    ((r.left < r.right) & (r.right <= 79)) & ((r.top < r.bottom) & (r.bottom <= 23))
}

// Each edge of one rectangle is in the other.
pub fn within(inner: Rect, outer: Rect) -> bool
    ensures { result ≡ rules.within inner outer }
{
    ((outer.left <= inner.left) & (inner.right <= outer.right))
        & ((outer.top <= inner.top) & (inner.bottom <= outer.bottom))
}

// Two rectangles share a cell.
pub fn shares_cell(r: Rect, q: Rect) -> bool
    ensures { result ≡ rules.shares_cell r q }
{
    ((r.left <= q.right) & (q.left <= r.right)) & ((r.top <= q.bottom) & (q.top <= r.bottom))
}

// Every edge is 0.
pub fn is_zero_rect(r: Rect) -> bool
    ensures { result ≡ rules.is_zero_rect r }
{
    r == Rect::default()
}
