// Paper 01's program: standard input through a plain console, and the screen printed in hex.
// What is read and printed is no part of any contract; the work is `console`'s.
#![tactic(auto)]

ghost use Rattle.std.specs.Prelude.{◌≤◌, ◌<◌, length};

use hex::encode_to_slice;
use session::{Session, feed, fresh_session};
use std::io;
use std::io::{ErrorKind, Read};

// One line of the screen: 160 hex digits and a line feed.
fn print_line(rt: &impl Print, line: &[u8; 80]) -> io::Result<()> {
    let mut text = [b'\n'; 161];
    encode_to_slice(line.as_slice(), &mut text[..160]).unwrap();
    rt.write_all(&text)
}

fn print_screen(rt: &impl Print, screen: &[u8; 1920]) -> io::Result<()> {
    let (lines, _) = screen.as_chunks::<80>();
    for line in lines {
        print_line(rt, line)?;
    }
    Ok(())
}

// The last line: cursor column, line and bells, in decimal.
fn print_cursor(rt: &impl Print, at: Session) -> io::Result<()> {
    let view = at.port.view;
    println!(rt; "cursor {} {} bells {}", view.column, view.line, at.bells)
}

// Reads until the piece is full or the input ends, and says how many bytes of it are the input's. A read that fails ends it too.
fn read_full<R: Read>(input: &mut R, piece: &mut [u8]) -> usize
    ensures { result ≤ length piece.old }
{
    let mut got = 0;
    // A count that no input reaches: how often the input gives no byte yet is not known.
    for _ in 0..u64::MAX {
        if got == piece.len() {
            break;
        }
        match input.read(&mut piece[got..]) {
            Ok(0) => break,
            Ok(n) => got += n,
            Err(e) if e.kind() == ErrorKind::Interrupted => {}
            Err(_) => break,
        }
    }
    got
}

// The input to its end or to 1,048,576 bytes: 256 pieces, each in one write. A stream may be cut anywhere.
fn read_all<R: Read>(input: &mut R, screen: &mut [u8], at: Session) -> Session {
    let mut piece = [0u8; 4096];
    let mut now = at;
    for _ in 0..256 {
        let got = read_full(input, &mut piece);
        now = feed(screen, now, &piece[..got]);
        if got < piece.len() {
            break;
        }
    }
    now
}

fn main(rt: HostRuntime) -> io::Result<()> {
    let mut screen = [0xA0u8; 1920];
    let end = read_all(&mut rt.reader(), &mut screen, fresh_session());
    print_screen(&rt, &screen)?;
    print_cursor(&rt, end)
}
