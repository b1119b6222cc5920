// The text in front of a lent buffer, changed where it lies. Bytes from the text's new end on stay as they were: the contracts speak of them too (`laid`), so each function takes the whole buffer and the text's size.
ghost use Rattle.std.specs.Prelude.{◌≤◌, ◌<◌, ◌≡◌, length, take};
ghost use Rattle.editing.specs.Keys.{inserted, removed, start_content};
ghost use Rattle.editing.specs.Buffer.{laid, state_of};

use super::State;

// A byte is put at a place of the text, whose size is in bytes, and those from there on move one place to the right.
pub fn insert_byte(buffer: &mut [u8], size: usize, at: usize, byte: u8)
    requires { (at ≤ size) × (size < length buffer.old) }
    ensures { buffer.new ≡ laid (inserted at byte (take size buffer.old)) buffer.old }
{
    buffer.copy_within(at..size, at + 1);
    buffer[at] = byte;
}

// The byte at a place of the text is taken out, and those after it move one place to the left.
pub fn remove_byte(buffer: &mut [u8], size: usize, at: usize)
    requires { (at < size) × (size ≤ length buffer.old) }
    ensures { buffer.new ≡ laid (removed at (take size buffer.old)) buffer.old }
{
    buffer.copy_within(at + 1..size, at);
}

// The text becomes the default, with the cursor after its last character but never past the width.
pub fn lay_default(width: usize, default: &[u8], buffer: &mut [u8]) -> State
    requires { length default.now ≤ length buffer.old }
    ensures { (result ≡ state_of (start_content width default.now)) × (buffer.new ≡ laid default.now buffer.old) }
{
    let length = default.len();
    buffer[..length].copy_from_slice(default);
    State {
        length,
        cursor: length.min(width),
    }
}
