// From a code to the byte that is stored on the screen: paper 01, 'From code to stored byte', and paper 02, request 03.
// Where the documents differ, these decide: MouseText has no effect in normal mode; codes 0x80 to 0xFF lose 128 in normal mode and are stored unchanged in inverse mode.
#![tactic(auto)]

pub mod table;

ghost use Rattle.std.specs.Prelude.{◌≡◌, ◌*◌, ◌≤◌};
ghost use Rattle.charset.specs.Stored.{row_of, IsRow, stored_byte};

use table::STORED;

// How printing codes look. MouseText is inverse with MouseText on. A mode's number is its row of the table.
#[derive(Clone, Copy, PartialEq, Eq, Debug)]
pub enum Mode {
    Normal = 0,
    Inverse = 1,
    MouseText = 2,
}

// Where a mode's 256 entries start.
fn row_start(mode: Mode) -> usize
    ensures place { result ≡ 256 * row_of mode }
    ensures in_table { result ≤ 512 }
{
    256 * (mode as usize)
}

// A mode's row of the table: the stored bytes of its 256 codes.
pub fn stored_row(mode: Mode) -> &'static [u8; 256]
    ensures { IsRow mode result.now }
{
    let start = row_start(mode);
    STORED[start..start + 256].as_array().unwrap()
}

// The byte that a code is stored as.
pub fn stored_byte(mode: Mode, code: u8) -> u8
    ensures { result ≡ stored_byte mode code }
{
    stored_row(mode)[code as usize]
}
