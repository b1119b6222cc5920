// A call is judged before it starts: refused, or accepted with the field that its keys obey.
ghost use Rattle.std.specs.Prelude.{◌≡◌, length, IfOk};
ghost use Rattle.editing.specs.Buffer as fields;
ghost use Rattle.field.specs.Verdict as rules;

use super::{Settings, Status};
use editing::{Field, State};

// A size is from 1 to 254.
fn out_of_range(size: usize) -> bool
    ensures { result ≡ rules.out_of_range size }
{
    !(1..=254).contains(&size)
}

// Refusals 11, 12 and 13, by the settings and the length of the buffer.
pub fn start_verdict<'a>(settings: &Settings<'a>, buffer: usize) -> Result<Field<'a>, Status>
    ensures verdict { rules.verdict_of result ≡ rules.start_verdict settings.now.width settings.now.maximum (length settings.now.default.now) buffer }
    ensures field { IfOk result (λ field. fields.settings_of field ≡ fields.settings settings.now.width settings.now.maximum settings.now.default.now) }
{
    let Settings {
        width,
        maximum,
        default,
    } = *settings;
    if out_of_range(width) || out_of_range(maximum) {
        return Err(Status::SizeOutOfRange);
    }
    if buffer < maximum {
        return Err(Status::BufferTooShort);
    }
    if maximum < default.len() {
        return Err(Status::DefaultTooLong);
    }
    Ok(Field {
        width,
        maximum,
        default,
    })
}

// Refusal 19.
fn state_verdict(field: &Field, state: State) -> Result<(), Status>
    ensures { result ≡ rules.state_verdict field.now.width field.now.maximum state }
{
    if field.maximum < state.length || state.length < state.cursor || field.width < state.cursor {
        return Err(Status::StateOutOfRange);
    }
    Ok(())
}

// Refusals 11, 12 and 13, and then 19.
pub fn keys_verdict<'a>(
    settings: &Settings<'a>,
    buffer: usize,
    state: State,
) -> Result<Field<'a>, Status>
    ensures verdict { rules.verdict_of result ≡ rules.keys_verdict settings.now.width settings.now.maximum (length settings.now.default.now) buffer state }
    ensures field { IfOk result (λ field. fields.settings_of field ≡ fields.settings settings.now.width settings.now.maximum settings.now.default.now) }
{
    let field = start_verdict(settings, buffer)?;
    state_verdict(&field, state)?;
    Ok(field)
}
