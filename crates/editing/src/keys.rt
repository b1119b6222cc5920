// A function for each key, with document 001's names. None is a key that is beeped: state and buffer stay. One that stores no byte takes no buffer: its contract is over any.
ghost use Rattle.std.specs.Prelude.{◌≤◌, ◌≡◌, length};
ghost use Rattle.editing.specs.Keys as rules;
ghost use Rattle.editing.specs.Buffer.{content_of, Ready, Presses, PressesAny};

use super::buffer::{insert_byte, lay_default, remove_byte};
use super::{Field, State};

// A printing key.
pub fn insert(field: &Field, buffer: &mut [u8], state: State, key: u8) -> Option<State>
    requires { Ready field.now.width field.now.maximum (length field.now.default.now) (length buffer.old) state }
    ensures { Presses (rules.insert field.now.width field.now.maximum (content_of state buffer.old) key) state buffer.old result buffer.new }
{
    let State { length, cursor } = state;
    if length == field.maximum || cursor == field.width {
        return None;
    }
    insert_byte(buffer, length, cursor, key);
    Some(State {
        length: length + 1,
        cursor: cursor + 1,
    })
}

// LEFT-ARROW.
pub fn move_left(state: State) -> Option<State>
    ensures { PressesAny rules.move_left state result }
{
    if state.cursor == 0 {
        return None;
    }
    Some(State {
        cursor: state.cursor - 1,
        ..state
    })
}

// RIGHT-ARROW.
pub fn move_right(width: usize, state: State) -> Option<State>
    requires { state.cursor ≤ state.length }
    ensures { PressesAny (rules.move_right width) state result }
{
    if state.cursor == state.length || state.cursor == width {
        return None;
    }
    Some(State {
        cursor: state.cursor + 1,
        ..state
    })
}

// CONTROL-D and DELETE.
pub fn delete_left(buffer: &mut [u8], state: State) -> Option<State>
    requires { (state.cursor ≤ state.length) × (state.length ≤ length buffer.old) }
    ensures { Presses (rules.delete_left (content_of state buffer.old)) state buffer.old result buffer.new }
{
    let State { length, cursor } = state;
    if cursor == 0 {
        return None;
    }
    remove_byte(buffer, length, cursor - 1);
    Some(State {
        length: length - 1,
        cursor: cursor - 1,
    })
}

// CONTROL-F.
pub fn delete_under(buffer: &mut [u8], state: State) -> Option<State>
    requires { (state.cursor ≤ state.length) × (state.length ≤ length buffer.old) }
    ensures { Presses (rules.delete_under (content_of state buffer.old)) state buffer.old result buffer.new }
{
    let State { length, cursor } = state;
    if cursor == length {
        return None;
    }
    remove_byte(buffer, length, cursor);
    Some(State {
        length: length - 1,
        cursor,
    })
}

// CONTROL-X.
pub fn delete_all(state: State) -> Option<State>
    ensures { PressesAny rules.delete_all state result }
{
    if state.length == 0 {
        return None;
    }
    Some(State::default())
}

// CONTROL-Y.
pub fn delete_to_end(state: State) -> Option<State>
    requires { state.cursor ≤ state.length }
    ensures { PressesAny rules.delete_to_end state result }
{
    if state.cursor == state.length {
        return None;
    }
    Some(State {
        length: state.cursor,
        ..state
    })
}

// CONTROL-Z, which is never beeped.
pub fn restore_default(field: &Field, buffer: &mut [u8]) -> State
    requires { length field.now.default.now ≤ length buffer.old }
    ensures { (state : State) → Presses (rules.restore_default field.now.width field.now.default.now) state buffer.old (Some result) buffer.new }
{
    lay_default(field.width, field.default, buffer)
}
