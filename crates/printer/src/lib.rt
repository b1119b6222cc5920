// Printing: a byte, the spaces of $10, and printing codes, of which a run that stays in one line is stored in one go.
#![tactic(auto)]

pub mod draw;

ghost use Rattle.std.specs.Prelude.{◌≡◌, ◌+◌, ◌≤◌, ◌<◌, length, get_or, take};
ghost use Rattle.charset.specs.Stored.{Printing, stored_byte};
ghost use Rattle.port.specs.State.{cursor_at};
ghost use Rattle.port.specs.Codes.{mode_of, print_byte, print_spaces};
ghost use Rattle.printer.specs.Execute.{AllOnScreen, Drew};
ghost use Rattle.printer.specs.Print.{Placed, Printed, RunPrinted};

use charset::stored_byte;
use draw::{Drawn, draw_plan};
use marks::mark;
use port::View;
use port::state::cursor_at;
use screen::{Screen, store_cell, store_run};
use view::cursor::advance;
use view::mode_of;

// Prints a byte: it is stored at the cursor, whose line is marked, and the cursor advances.
// The view and the marks are handed in apart, here and below, and are no `Drawn`: with that copied in, a long run took nearly an instruction more a code, and the one-byte call 18 more.
pub fn print_byte(screen: &mut Screen, v: View, marks: u32, byte: u8) -> Drawn
    requires { AllOnScreen (print_byte v byte).edits }
    ensures { Drew (print_byte v byte) marks result.view result.marks screen.old screen.new }
{
    store_cell(screen, v.column, v.line, byte);
    draw_plan(screen, mark(marks, v.line, v.line), advance(v))
}

// Prints spaces, each stored as byte.
pub fn print_spaces(screen: &mut Screen, at: Drawn, byte: u8, count: u8) -> Drawn
    requires { AllOnScreen (print_spaces count at.view).edits × (byte ≡ stored_byte (mode_of at.view) 0x20) }
    ensures { Drew (print_spaces count at.view) at.marks result.view result.marks screen.old screen.new }
{
    let mut next = at;
    for _ in 0..count {
        next = print_byte(screen, next.view, next.marks, byte);
    }
    next
}

// Prints the first of the codes while they are printing codes and stay left of the right edge: they are stored in one go.
// The cursor is left for the caller to move, and the line to mark. Returns how many they are, 0 where the cursor does not advance.
fn print_run(screen: &mut Screen, v: View, codes: &[u8]) -> usize
    requires { Placed v }
    ensures { (v.column + result ≤ v.viewport.right) × (result ≤ length codes.now) × RunPrinted v result (take result codes.now) (cursor_at v (v.column + result) v.line) screen.old screen.new }
{
    if !v.flags.advance {
        return 0;
    }
    store_run(
        screen,
        v.column as usize,
        v.line as usize,
        (v.viewport.right - v.column) as usize,
        mode_of(v),
        codes,
    )
}

// What printing leaves, and how many codes were printed.
#[derive(Clone, Copy, PartialEq, Eq, Debug)]
pub struct PrintedCodes {
    pub drawn: Drawn,
    pub count: usize,
}

// Prints the first of the codes, which is a printing code: a run of them, or that code alone.
// How many is a matter of speed alone: what is left is what printing them one after another leaves.
pub fn print_codes(screen: &mut Screen, v: View, marks: u32, codes: &[u8]) -> PrintedCodes
    requires { Placed v × (0 < length codes.now) × Printing (get_or codes.now 0 0) }
    ensures { (0 < result.count) × (result.count ≤ length codes.now) × Printed v marks (take result.count codes.now) result.drawn.view result.drawn.marks screen.old screen.new }
{
    let run = print_run(screen, v, codes);
    if 0 < run {
        return PrintedCodes {
            drawn: Drawn {
                view: cursor_at(v, v.column + run as u8, v.line),
                marks: mark(marks, v.line, v.line),
            },
            count: run,
        };
    }
    let byte = stored_byte(mode_of(v), codes[0]);
    PrintedCodes {
        drawn: print_byte(screen, v, marks, byte),
        count: 1,
    }
}
