#![tactic(auto)]

use multiplexer::Answer;
use rectangle::Rect;
use std::io;

// A call's number and count, in decimal.
fn show(rt: &impl Print, answer: Answer) -> io::Result<()> {
    let number = reply::status_number(answer.status);
    let count = answer.count;
    println!(rt; "{number} {count}")
}

fn main(rt: HostRuntime) -> io::Result<()> {
    // The screen is the host's own: 24 lines of 80 bytes, blank at the start.
    let mut screen = [0xA0u8; 1920];
    // Client 7 gets the left half. Each call hands the multiplexer back for the next one.
    let pane = Rect {
        left: 0,
        top: 0,
        right: 39,
        bottom: 23,
    };
    let opened = multiplexer::open(multiplexer::fresh_multiplexer(), &mut screen, 7, pane);
    show(&rt, opened)?;
    // Text and a bell: 0, done, and 1 bell.
    let written = multiplexer::write(opened.state, &mut screen, 7, b"Hello\x07");
    show(&rt, written)?;
    // Nobody is client 8: refused with 8, and nothing changes.
    let refused = multiplexer::write(written.state, &mut screen, 8, b"Hello");
    show(&rt, refused)
}
