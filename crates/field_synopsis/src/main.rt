#![tactic(auto)]

use field::{KeysAnswer, Settings};
use std::io;

// A call's number, keys read and beeps, in decimal.
fn show(rt: &impl Print, answer: KeysAnswer) -> io::Result<()> {
    let KeysAnswer {
        status,
        read,
        beeps,
        ..
    } = answer;
    let number = field::status_number(status);
    println!(rt; "{number} {read} {beeps}")
}

fn main(rt: HostRuntime) -> io::Result<()> {
    // A name of at most 20 characters, typed in a field 12 columns wide. The buffer is the host's own.
    let settings = Settings {
        width: 12,
        maximum: 20,
        default: b"Bench 7",
    };
    let mut buffer = [0u8; 20];
    let started = field::start(&settings, &mut buffer);
    // DELETE takes the 7 away; $80 is no editing key, and beeps. The state is handed back for the next keys.
    let first = field::keys(&settings, &mut buffer, started.state, b"\x7F\x80");
    show(&rt, first)?;
    // A 9 and Return, which ends the field: the keys after it are not read.
    let second = field::keys(&settings, &mut buffer, first.state, b"9\x0Dxyz");
    show(&rt, second)?;
    // The typed text: a part of the buffer itself. After Escape it would be the default.
    let name = field::text(&settings, &buffer, second.state, second.ending);
    rt.write_all(name)?;
    rt.write_all(b"\n")
}
