// Paper 02, request 01: what a key does in an input field. The text lies in front of a lent buffer.
// Here is the choice of the key; `keys` has a function for each one, `buffer` the moves of bytes, and `field` what keys obey.
#![tactic(auto)]

pub mod buffer;
mod field;
mod keys;

ghost use Rattle.std.specs.Prelude.{◌≡◌, length};
ghost use Rattle.editing.specs.Keys as rules;
ghost use Rattle.editing.specs.Buffer.{settings_of, content_of, Ready, Presses};

pub use field::Field;
use keys::{
    delete_all, delete_left, delete_to_end, delete_under, insert, move_left, move_right,
    restore_default,
};

// The text is the first length bytes of the buffer, and cursor of them stand before the cursor.
// A host's, of any values: `field` refuses a cursor past the text (19), so that the cursor stands in it is a clause of a key's function, and no invariant here.
#[derive(Clone, Copy, PartialEq, Eq, Debug, Default)]
pub struct State {
    pub length: usize,
    pub cursor: usize,
}

// A key that ends nothing, a byte as the request names it: each by its own arm, and any other is beeped. What it leaves, or none where it is beeped: then state and buffer stay.
// Field, buffer and state are no struct with methods, and `Ready` is a clause: a key that stores no byte is given no buffer, and that shows that the buffer stays.
pub fn press(field: &Field, buffer: &mut [u8], state: State, key: u8) -> Option<State>
    requires { Ready field.now.width field.now.maximum (length field.now.default.now) (length buffer.old) state }
    ensures { Presses (rules.press (settings_of field.now) (content_of state buffer.old) key) state buffer.old result buffer.new }
{
    match key {
        0x20..=0x7E => insert(field, buffer, state, key),
        0x08 => move_left(state),
        0x15 => move_right(field.width, state),
        0x04 | 0x7F => delete_left(buffer, state),
        0x06 => delete_under(buffer, state),
        0x18 => delete_all(state),
        0x19 => delete_to_end(state),
        0x1A => Some(restore_default(field, buffer)),
        _ => None,
    }
}
