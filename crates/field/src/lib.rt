// Paper 02, request 01: the input field of document 001, as a host calls it. No public function has a `requires`: every input, refused or not, has its equation.
// A call is judged here, and its keys are read here; what a key does is in `editing`.
#![tactic(auto)]

mod verdict;

ghost use Rattle.std.specs.Prelude.{◌≡◌, length};
ghost use Rattle.editing.specs.Buffer.{Ready, settings_of, content_of};
ghost use Rattle.field.specs.Statuses.{status_number};
ghost use Rattle.field.specs.Endings.{ending_of, ending_key};
ghost use Rattle.field.specs.Typing as rules;
ghost use Rattle.field.specs.Calls.{Replies, answer_of, start_call, keys_typed, keys_call, text_call, IsText};

use editing::buffer::lay_default;
use editing::{Field, State, press};
use verdict::{keys_verdict, start_verdict};

// What a host says of its field, the same at each call: how wide it is, how long its text may be, and the text that it starts as. Of any values: each call judges them. The buffer goes beside it: a start and keys change it, and `text` hands out a part of it.
#[derive(Clone, Copy)]
pub struct Settings<'a> {
    pub width: usize,
    pub maximum: usize,
    pub default: &'a [u8],
}

// The request's refusals in their order, with their numbers. Done stands among them: the request numbers all in one row, and `Answers` of the laws reads them so.
#[derive(Clone, Copy, PartialEq, Eq, Debug)]
pub enum Status {
    Done = 0,
    SizeOutOfRange = 11,
    BufferTooShort = 12,
    DefaultTooLong = 13,
    StateOutOfRange = 19,
}

// The request's number.
pub fn status_number(status: Status) -> u8
    ensures { result ≡ status_number status }
{
    status as u8
}

// The key that ended the field, as its byte.
#[derive(Clone, Copy, PartialEq, Eq, Debug)]
pub enum Ending {
    Return = 0x0D,
    Escape = 0x1B,
}

// The ending that a key is, if it is one: a match, and no `TryFrom`, which would ask for an error where None says it.
pub fn ending_of(key: u8) -> Option<Ending>
    ensures { result ≡ ending_of key }
{
    match key {
        0x0D => Some(Ending::Return),
        0x1B => Some(Ending::Escape),
        _ => None,
    }
}

// Its key, and 0 for none.
pub fn ending_key(ending: Option<Ending>) -> u8
    ensures { result ≡ ending_key ending }
{
    ending.map_or(0, |ended| ended as u8)
}

// What a start hands back. A status and a state, and no Result: request 01 has a refused start hand back 0, 0 too (`start_refused`).
#[derive(Clone, Copy, PartialEq, Eq, Debug)]
pub struct StartAnswer {
    pub status: Status,
    pub state: State,
}

// What a call with keys hands back: the state, how many keys were read and how many of them beeped, and the ending. No Result, as a start: a refused call hands back the state as it came (`keys_refused`).
#[derive(Clone, Copy, PartialEq, Eq, Debug)]
pub struct KeysAnswer {
    pub status: Status,
    pub state: State,
    pub read: usize,
    pub beeps: usize,
    pub ending: Option<Ending>,
}

// The text becomes the default.
pub fn start(settings: &Settings, buffer: &mut [u8]) -> StartAnswer
    ensures { Replies (start_call settings.now.width settings.now.maximum settings.now.default.now buffer.old) result buffer.new }
{
    match start_verdict(settings, buffer.len()) {
        Err(status) => StartAnswer {
            status,
            state: State::default(),
        },
        Ok(field) => StartAnswer {
            status: Status::Done,
            state: lay_default(field.width, field.default, buffer),
        },
    }
}

// What a call hands back before it reads a key, and where it is refused.
fn nothing_read(status: Status, state: State) -> KeysAnswer
    ensures { result ≡ answer_of status state 0 0 None }
{
    KeysAnswer {
        status,
        state,
        read: 0,
        beeps: 0,
        ending: None,
    }
}

// Keys up to the first ending key, or all of them.
fn type_keys(field: &Field, buffer: &mut [u8], state: State, keys: &[u8]) -> KeysAnswer
    requires { Ready field.now.width field.now.maximum (length field.now.default.now) (length buffer.old) state }
    ensures { Replies (keys_typed (rules.type_keys (settings_of field.now) (content_of state buffer.old) buffer.old keys.now)) result buffer.new }
{
    let mut answer = nothing_read(Status::Done, state);
    for &key in keys {
        answer.read += 1;
        answer.ending = ending_of(key);
        if answer.ending.is_some() {
            return answer;
        }
        match press(field, buffer, answer.state, key) {
            Some(next) => answer.state = next,
            None => answer.beeps += 1,
        }
    }
    answer
}

// Reads keys, with the state that the last call handed back.
pub fn keys(settings: &Settings, buffer: &mut [u8], state: State, keys: &[u8]) -> KeysAnswer
    ensures { Replies (keys_call settings.now.width settings.now.maximum settings.now.default.now buffer.old state keys.now) result buffer.new }
{
    match keys_verdict(settings, buffer.len(), state) {
        Err(status) => nothing_read(status, state),
        Ok(field) => type_keys(&field, buffer, state, keys),
    }
}

// What the user has chosen, once a key has ended the field: after Return the typed text, after Escape the default. A part of the lent buffer or of the lent default itself.
pub fn text<'a>(
    settings: &Settings<'a>,
    buffer: &'a [u8],
    state: State,
    ending: Option<Ending>,
) -> &'a [u8]
    ensures { IsText (text_call settings.now.width settings.now.maximum (length settings.now.default.now) (length buffer.now) state ending) settings.now.default buffer.entry result }
{
    if keys_verdict(settings, buffer.len(), state).is_err() {
        return &buffer[..0];
    }
    match ending {
        None => &buffer[..0],
        Some(Ending::Return) => &buffer[..state.length],
        Some(Ending::Escape) => settings.default,
    }
}
