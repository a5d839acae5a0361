// The input of the program `outline`, byte by byte, and its lines.
// Internal to this repository: a caller here meets each `requires`; no entry point is in this crate.
#![tactic(auto)]

ghost use Rattle.std.specs.Prelude.{◌≡◌, [], ◌∷◌, ◌≤◌, length};
ghost use Rattle.inputs.specs.Places.{place_in, Keeps, Reads, Ends, Finishes, reader_with};
ghost use Rattle.printing.specs.Held.{Flushed};

use lines::count;
use obeying::{Room, Session};
use std::io::Stdout;

// Of a line so many characters are kept: one more than the longest has.
pub const LINE_ROOM: usize = 8193;

#[derive(Clone, Copy)]
pub struct Reader {
    pub session: Session,
    // How many characters of the next line are kept, counted to 8,193 at most.
    pub filled: usize,
}

// A character is kept behind those of the line that are kept already, if there is room.
fn keep(filled: usize, byte: u8, line: &mut [u8; LINE_ROOM]) -> usize
    ensures { Keeps byte filled line.old result line.new }
{
    if filled < line.len() {
        line[filled] = byte;
        return filled + 1;
    }
    filled
}

// The line is whole: what it says is done.
fn end_line(
    stdout: Stdout,
    r: Reader,
    room: &mut Room,
    text: &mut [u8],
    line: &[u8; LINE_ROOM],
) -> Reader
    requires { 128 ≤ length text.old }
    ensures { Ends (place_in r room.old text.old line.now) (place_in result room.new text.new line.now) }
{
    let n = count(r.filled, line);
    Reader {
        session: obeying::act_on(stdout, r.session, &line[..n], room, text),
        filled: 0,
    }
}

// One byte of the input: LF ends a line.
fn feed(
    stdout: Stdout,
    r: Reader,
    byte: u8,
    room: &mut Room,
    text: &mut [u8],
    line: &mut [u8; LINE_ROOM],
) -> Reader
    requires { 128 ≤ length text.old }
    ensures { Reads (byte ∷ []) (place_in r room.old text.old line.old) (place_in result room.new text.new line.new) }
{
    if byte == b'\n' {
        return end_line(stdout, r, room, text, line);
    }
    Reader {
        session: r.session,
        filled: keep(r.filled, byte, line),
    }
}

// A piece of the input.
pub fn take_piece(
    stdout: Stdout,
    start: Reader,
    piece: &[u8],
    room: &mut Room,
    text: &mut [u8],
    line: &mut [u8; LINE_ROOM],
) -> Reader
    requires { 128 ≤ length text.old }
    ensures { Reads piece.now (place_in start room.old text.old line.old) (place_in result room.new text.new line.new) }
{
    let mut r = start;
    for &byte in piece {
        r = feed(stdout, r, byte, room, text, line);
    }
    r
}

// The end of the input: a line that no LF ends.
pub fn finish(
    stdout: Stdout,
    r: Reader,
    room: &mut Room,
    text: &mut [u8],
    line: &[u8; LINE_ROOM],
) -> Reader
    requires { 128 ≤ length text.old }
    ensures { Finishes (place_in r room.old text.old line.now) (place_in result room.new text.new line.now) }
{
    if r.filled == 0 {
        return r;
    }
    end_line(stdout, r, room, text, line)
}

// What waits to be written is written.
pub fn write_out(stdout: Stdout, r: Reader, text: &[u8]) -> Reader
    ensures { Flushed r.session.output text.now result.session.output × (result ≡ reader_with r result.session.output) }
{
    let o = printing::flush(stdout, r.session.output, text);
    Reader {
        session: obeying::with_output(r.session, o),
        filled: r.filled,
    }
}
