// The port of paper 01, 'Screen and port': document 000's text port. Its state, and when it is valid.
// Document 002 drops a command whose parameters have not all come when a write ends; here it waits (paper 01 decides).
#![tactic(auto)]

pub mod state;
pub mod valid;

use rectangle::Rect;

// What $15 sets: document 000's cursor movement flags.
#[derive(Clone, Copy, PartialEq, Eq, Debug, Default)]
pub struct Flags {
    pub dle: bool,
    pub scroll: bool,
    pub wrap: bool,
    pub lf: bool,
    pub advance: bool,
}

// What $01 saves and $04 takes back. The cursor is absolute: a column and a line of the screen.
// A host hands in any values of the fields, and a saved view may be any: so that the cursor lies in the viewport is a clause, `ValidView` or `Placed`, and no type.
#[derive(Clone, Copy, PartialEq, Eq, Debug, Default)]
pub struct View {
    pub viewport: Rect,
    pub column: u8,
    pub line: u8,
    pub flags: Flags,
    pub inverse: bool,
    pub mousetext: bool,
}

// A port: its home rectangle, its view, at most one saved view, a command that waits for its parameters, and the marks of the lines that were stored to.
// Fields that carry nothing hold 0 or false: saved where hassaved is false, count where waiting is 0, gathered from count on.
// Paper 01 asks for this form by place ('an array of gathered parameter bytes beside the waiting code and count'), and a host hands in any values of the fields, a saved view without hassaved too, which refusal 2 is about (`valid_saved`, `valid_wait`): so that they fit one another is a clause, `ValidPort`, and no type.
#[derive(Clone, Copy, PartialEq, Eq, Debug, Default)]
pub struct Port {
    pub home: Rect,
    pub view: View,
    pub hassaved: bool,
    pub saved: View,
    pub waiting: u8,
    pub gathered: [u8; 4],
    pub count: u8,
    // Line r is bit r, line 0 the lowest.
    pub marks: u32,
}
