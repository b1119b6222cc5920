// An input field's calls, in numbers and slices: the state comes in as its length and its cursor, and an ending as its key. The names and the parameters are those of the C interface, and so is a result of 0 where nothing was done (`Runs`).
ghost use Rattle.std.specs.Prelude.{◌≤◌, ◌≡◌, ◌++◌, length, drop};
ghost use Rattle.boundary.specs.Run.{Runs};
ghost use Rattle.boundary.specs.Fields.{state_at, numbers_of, start_run, keys_run, text_run};

use editing::State;
use field::{
    KeysAnswer, Settings, StartAnswer, ending_key, ending_of, keys, start, status_number, text,
};

// The status, length and cursor, keys read, beeps, and the ending's key.
fn put_numbers(answer: &mut [usize], typed: KeysAnswer)
    requires { 6 ≤ length answer.old }
    ensures { answer.new ≡ numbers_of typed.status typed.state typed.read typed.beeps typed.ending ++ drop 6 answer.old }
{
    let numbers = [
        status_number(typed.status) as usize,
        typed.state.length,
        typed.state.cursor,
        typed.read,
        typed.beeps,
        ending_key(typed.ending) as usize,
    ];
    answer[..6].copy_from_slice(&numbers);
}

// A start. The result is the length of the answer (`put_numbers`), or 0, with nothing done, where there is no room for it.
#[unsafe(no_mangle)]
pub extern "C" fn combthrift_field_start(
    width: usize,
    maximum: usize,
    default: &[u8],
    buffer: &mut [u8],
    answer: &mut [usize],
) -> usize
    ensures { Runs (start_run width maximum default.now buffer.old answer.old) result buffer.new answer.new }
{
    if answer.len() < 6 {
        return 0;
    }
    let settings = Settings {
        width,
        maximum,
        default,
    };
    let StartAnswer { status, state } = start(&settings, buffer);
    put_numbers(
        answer,
        KeysAnswer {
            status,
            state,
            read: 0,
            beeps: 0,
            ending: None,
        },
    );
    6
}

// Keys, with the state of the call before. The result is as that of a start.
#[unsafe(no_mangle)]
pub extern "C" fn combthrift_field_keys(
    width: usize,
    maximum: usize,
    default: &[u8],
    buffer: &mut [u8],
    length: usize,
    cursor: usize,
    stream: &[u8],
    answer: &mut [usize],
) -> usize
    ensures { Runs (keys_run width maximum default.now buffer.old (state_at length cursor) stream.now answer.old) result buffer.new answer.new }
{
    if answer.len() < 6 {
        return 0;
    }
    let settings = Settings {
        width,
        maximum,
        default,
    };
    let typed = keys(&settings, buffer, State { length, cursor }, stream);
    put_numbers(answer, typed);
    6
}

// The text, copied to the front of the answer. The result is its length, or 0, with nothing copied, where there is no room for it.
#[unsafe(no_mangle)]
pub extern "C" fn combthrift_field_text<'a>(
    width: usize,
    maximum: usize,
    default: &'a [u8],
    buffer: &'a [u8],
    length: usize,
    cursor: usize,
    ending: u8,
    answer: &mut [u8],
) -> usize
    ensures { Runs (text_run width maximum default.now buffer.now (state_at length cursor) ending answer.old) result buffer.now answer.new }
{
    let settings = Settings {
        width,
        maximum,
        default,
    };
    let chosen = text(
        &settings,
        buffer,
        State { length, cursor },
        ending_of(ending),
    );
    if answer.len() < chosen.len() {
        return 0;
    }
    answer[..chosen.len()].copy_from_slice(chosen);
    chosen.len()
}
