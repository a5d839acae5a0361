// The program `outline`: reads lines from standard input, runs each on a chip, and prints what the wire shows (docs/OUTLINE.md).
// The chip is the record block of crate slipknoll and a lent array; it starts as a fresh short part.
#![tactic(auto)]

ghost use Rattle.std.specs.Prelude.{◌≡◌, ◌≤◌, ◌<◌, true, false, cond, length, IfSome};
ghost use Rattle.io.specs.Counts.{IsPrefixLen};
ghost use Rattle.inputs.specs.Places.{place_in, Closes};
ghost use Rattle.outline.specs.declared.State.{State};
ghost use Rattle.outline.specs.Run.{is_unread, is_open, Went, Said};

use inputs::{LINE_ROOM, Reader};
use obeying::Room;
use std::io::{Read, Stderr, Stdin, Stdout};

// How often a read that fails is tried again, whatever the system says of it: one that was interrupted or came too soon is not told from one
// that fails for good.
const TRIES: u32 = 33_554_432;

// Whether to read on; if not, whether the input is read as far as it matters, or cannot be read.
#[derive(Clone, Copy)]
pub enum State {
    Open,
    Ended,
    Unread,
}

// How many bytes of the input are read, and whether to read on.
#[derive(Clone, Copy)]
pub struct Input {
    pub reader: Reader,
    pub read: u64,
    pub state: State,
}

// How the run ended: whether the input could not be read to its end, or the output not be written; and how many bytes were read and written. The
// flags stay flags: either may be set without the other, and the counts hold whichever is set.
#[derive(Clone, Copy)]
pub struct Ended {
    pub unread: bool,
    pub unwritten: bool,
    pub read: u64,
    pub written: u64,
}

fn main(rt: HostRuntime) {
    let mut room = Room {
        block: [0; 765],
        array: [0; 1081344],
        junk: [0; 1114112],
        log: [0; 102204],
        out: [0; 65536],
    };
    let mut text = io::large_buffer();
    let mut line = [0; LINE_ROOM];
    let e = run(rt.stdin(), rt.stdout(), &mut room, &mut text, &mut line);
    report(rt.stderr(), e);
}

// What failed is said on standard error.
fn report(stderr: Stderr, e: Ended) {
    if e.unread {
        printing::complain(
            stderr,
            b"outline: the input cannot be read; what was read is outlined\n",
        );
    }
    if e.unwritten {
        printing::complain(
            stderr,
            b"outline: the output cannot be written; it is not whole\n",
        );
    }
}

// The whole run, with all that the program holds lent.
fn run(
    stdin: Stdin,
    stdout: Stdout,
    room: &mut Room,
    text: &mut [u8],
    line: &mut [u8; LINE_ROOM],
) -> Ended
    requires { 128 ≤ length text.old }
    ensures { Said result }
{
    let r = Reader {
        session: obeying::start(&mut room.block, &mut room.array),
        filled: 0,
    };
    let i = read_all(stdin, stdout, r, room, text, line);
    let t = end_input(stdout, i, room, text, line);
    let w = inputs::write_out(stdout, t, text);
    let o = w.session.output;
    Ended {
        unread: is_unread(i.state),
        unwritten: o.failed,
        read: i.read,
        written: o.written,
    }
}

// ---- the input

// One read, tried again while it fails: how many bytes it gave, none at the end of the input; no count if it fails for good.
fn read_some(stdin: Stdin, piece: &mut [u8]) -> Option<usize>
    ensures { IfSome result (λ n. IsPrefixLen n piece.new) }
{
    let mut from = stdin;
    for _ in 0..TRIES {
        if let Ok(n) = from.read(piece) {
            return Some(n);
        }
    }
    None
}

fn is_unread(s: State) -> bool
    ensures { result ≡ is_unread s }
{
    matches!(s, State::Unread)
}

fn is_open(s: State) -> bool
    ensures { result ≡ is_open s }
{
    matches!(s, State::Open)
}

// Where writing has failed nothing more is read.
fn state_after(failed: bool) -> State
    ensures { result ≡ cond failed State.Ended State.Open }
{
    if failed { State::Ended } else { State::Open }
}

// Nothing more is read: the input cannot be read on, or is read as far as it matters.
fn stopped(i: Input, unread: bool) -> Input
    ensures { result ≡ record { reader = i.reader; read = i.read; state = cond unread State.Unread State.Ended } }
{
    let state = if unread { State::Unread } else { State::Ended };
    Input { state, ..i }
}

// One piece of the input is read and acted on; what waits to be written is written. The end of the input closes it, and so does a read that
// fails for good, or a count that has no room for the piece.
fn read_piece(
    stdin: Stdin,
    stdout: Stdout,
    i: Input,
    room: &mut Room,
    text: &mut [u8],
    line: &mut [u8; LINE_ROOM],
) -> Input
    requires { 128 ≤ length text.old }
    ensures went { Went i.read (place_in i.reader room.old text.old line.old) result.read (place_in result.reader room.new text.new line.new) }
    ensures goes { is_open result.state ≡ true → (i.read < result.read) × (result.reader.session.output.failed ≡ false) }
{
    let mut piece = io::large_buffer();
    let Some(n) = read_some(stdin, &mut piece) else {
        return stopped(i, true);
    };
    if n == 0 {
        return stopped(i, false);
    }
    let Some(read) = i.read.checked_add(n as u64) else {
        return stopped(i, true);
    };
    let bytes = &piece[..n];
    let t = inputs::take_piece(stdout, i.reader, bytes, room, text, line);
    let reader = inputs::write_out(stdout, t, text);
    Input {
        reader,
        read,
        state: state_after(reader.session.output.failed),
    }
}

// Every piece of the input. A proved loop has to end, and nothing says that the input does: the loop takes a number of turns that no run uses up.
fn read_all(
    stdin: Stdin,
    stdout: Stdout,
    start: Reader,
    room: &mut Room,
    text: &mut [u8],
    line: &mut [u8; LINE_ROOM],
) -> Input
    requires { 128 ≤ length text.old }
    ensures { Went 0 (place_in start room.old text.old line.old) result.read (place_in result.reader room.new text.new line.new) }
{
    let mut i = Input {
        reader: start,
        read: 0,
        state: State::Open,
    };
    for _ in 0..u64::MAX {
        if !is_open(i.state) {
            return i;
        }
        i = read_piece(stdin, stdout, i, room, text, line);
    }
    i
}

// The input has ended: the last line too, unless the input could not be read to its end.
fn end_input(
    stdout: Stdout,
    i: Input,
    room: &mut Room,
    text: &mut [u8],
    line: &[u8; LINE_ROOM],
) -> Reader
    requires { 128 ≤ length text.old }
    ensures { Closes (is_unread i.state) (place_in i.reader room.old text.old line.now) (place_in result room.new text.new line.now) }
{
    if is_unread(i.state) {
        return i.reader;
    }
    inputs::finish(stdout, i.reader, room, text, line)
}
