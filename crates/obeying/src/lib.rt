// What a line of the program `outline` does to the chip, and what it prints.
// Internal to this repository: a caller here meets each `requires`; no entry point is in this crate.
#![tactic(auto)]

ghost use Rattle.std.specs.Prelude.{◌≡◌, true, false, List, [], ℕ, ◌+◌, ◌≤◌, min, length, take};
ghost use Rattle.printing.specs.Held.{Printed};
ghost use Rattle.lines.specs.Texts.{fault_text};
ghost use Rattle.printing.specs.Texts.{sum_line};
ghost use Rattle.lengths.specs.Lengths.{Lends, array_room};
ghost use Rattle.acting.specs.Steps.{is_step, Seen};
ghost use Rattle.orders.specs.Bounds.{Sound, SoundReading};
ghost use Rattle.faults.specs.Messages.{text_of};
ghost use Rattle.words.specs.Words.{is_call};
ghost use Rattle.state.specs.Memory.{chip_in};
ghost use Rattle.blocks.specs.Block.{encode_chip};
ghost use Rattle.obeying.specs.Desk.{desk_of, desk_in, counted, fresh_part, Whole, renewed, begun};
ghost use Rattle.obeying.specs.Orders.{is_sum, seen_on, seen_in, stepped, shown_by, shown_of, summed, obeyed, shown, after_line, line_text};
ghost use Rattle.obeying.specs.Promises.{Roomy, Obeyed, Obeys, Ran, after_step, with_output};

use acting::Totals;
use lines::count;
use orders::{Command, Fault, Order};
use printing::Output;
use std::io::Stdout;

// The length of the array of the part that the program starts with.
const FIRST_LENGTH: usize = 33792;

// What is kept between lines, beside the buffers.
#[derive(Clone, Copy)]
pub struct Session {
    // The length of the chip's array.
    pub size: usize,
    // Of the last step: the lengths of the log and of the get buffer or reply that it lent, and what a get gave.
    pub log: usize,
    pub out: usize,
    pub given: u64,
    // How many lines have been read.
    pub lines: u64,
    pub output: Output,
}

// The buffers that live as long as the program: the chip's record block, its array, junk for a cut, a log, and a get buffer or reply. Each is as
// long as any line can need. Text that waits to be written is lent beside them: the promises let a caller choose its length, from 128 on.
#[derive(Drop)]
pub struct Room {
    pub block: [u8; 765],
    pub array: [u8; 1081344],
    pub junk: [u8; 1114112],
    pub log: [u8; 102204],
    pub out: [u8; 65536],
}

// ---- sessions

// After a step that lent an array, a log and a get buffer or reply of these lengths.
fn after_step(
    s: Session,
    size: usize,
    log: usize,
    out: usize,
    given: u64,
    output: Output,
) -> Session
    ensures { result ≡ after_step s size log out given output }
{
    Session {
        size,
        log,
        out,
        given,
        lines: s.lines,
        output,
    }
}

pub fn with_output(s: Session, output: Output) -> Session
    ensures { result ≡ with_output s output }
{
    let mut t = s;
    t.output = output;
    t
}

// A line more has been read.
fn next_line(s: Session) -> Session
    ensures { ((block array log out : List ℕ) → desk_of result block array log out ≡ counted (desk_of s block array log out)) × (result.output ≡ s.output) }
{
    let mut t = s;
    if t.lines < u64::MAX {
        t.lines += 1;
    }
    t
}

// ---- a step

// What it shows is printed: a call's frames and totals, or the answer alone.
fn show(stdout: Stdout, c: Command, o: Output, text: &mut [u8], log: &[u8], t: Totals) -> Output
    requires { 128 ≤ length text.old }
    ensures { Printed (shown_by (is_call c) log.now t.frames t.polls t.answer) o text.old result text.new }
{
    let frames = t.frames;
    let polls = t.polls;
    let answer = t.answer;
    if orders::is_call(c) {
        return printing::print_call(stdout, o, text, log, frames, polls, answer);
    }
    printing::print_answer(stdout, o, text, answer)
}

// The order is carried out on what is lent, and what it shows is printed.
fn run(
    stdout: Stdout,
    o: Order,
    s: Session,
    block: &mut [u8; 765],
    array: &mut [u8],
    bytes: &[u8],
    script: &[u8],
    junk: &mut [u8],
    log: &mut [u8],
    out: &mut [u8],
    text: &mut [u8],
) -> Session
    requires { (128 ≤ length text.old) × (is_step o.command ≡ true) × Lends o (length array.old) (length bytes.now) (length junk.old) (length log.old) (length out.old) }
    ensures { Ran (seen_on o bytes.now script.now block.old array.old) (shown_of o.command (seen_on o bytes.now script.now block.old array.old)) s text.old result block.new array.new log.new out.new text.new }
{
    let t = acting::take_step(o, block, array, bytes, script, junk, log, out);
    let c = o.command;
    let given = t.given;
    let p = show(stdout, c, s.output, text, log, t);
    after_step(s, array.len(), log.len(), out.len(), given, p)
}

// The array and the buffers are lent at their lengths. They come one by one, as in `run`: the check doesn't follow a part of an array that is a
// struct's field.
fn lend(
    stdout: Stdout,
    o: Order,
    s: Session,
    block: &mut [u8; 765],
    array: &mut [u8],
    bytes: &[u8],
    script: &[u8],
    junk: &mut [u8],
    log: &mut [u8],
    out: &mut [u8],
    text: &mut [u8],
) -> Session
    requires { Roomy array.old junk.old log.old out.old text.old × (is_step o.command ≡ true) }
    ensures { Obeyed (stepped (seen_on o bytes.now script.now block.old (take s.size array.old)) (desk_of s block.old array.old log.old out.old)) (shown_of o.command (seen_on o bytes.now script.now block.old (take s.size array.old))) s text.old result block.new array.new log.new out.new text.new }
{
    let n = count(s.size, array);
    let l = lengths::lengths(o, n, bytes.len());
    let j = count(l.junk, junk);
    let g = count(l.log, log);
    let u = count(l.out, out);
    run(
        stdout,
        o,
        s,
        block,
        &mut array[..n],
        bytes,
        script,
        &mut junk[..j],
        &mut log[..g],
        &mut out[..u],
        text,
    )
}

// A call, or an event on the chip.
fn step(
    stdout: Stdout,
    o: Order,
    s: Session,
    line: &[u8],
    room: &mut Room,
    text: &mut [u8],
) -> Session
    requires { (128 ≤ length text.old) × (is_step o.command ≡ true) × Sound (length line.now) o }
    ensures { Obeys (stepped (seen_in o line.now (desk_in s room.old)) (desk_in s room.old)) (shown_of o.command (seen_in o line.now (desk_in s room.old))) s text.old result room.new text.new }
{
    let mut bytes = io::buffer();
    let mut script = io::buffer();
    let m = contents::bytes_of(line, o.bytes, &mut bytes);
    let k = contents::bytes_of(line, o.script, &mut script);
    lend(
        stdout,
        o,
        s,
        &mut room.block,
        &mut room.array,
        &bytes[..m],
        &script[..k],
        &mut room.junk,
        &mut room.log,
        &mut room.out,
        text,
    )
}

// ---- the other orders

// The chip becomes a fresh part of `n` bytes, the first of the array; its factory bytes are 0.
fn renew(n: usize, block: &mut [u8; 765], array: &mut [u8])
    requires { (length array.old ≡ array_room) × Whole n }
    ensures { (block.new ≡ encode_chip (chip_in (fresh_part n).state)) × (take n array.new ≡ (fresh_part n).state.memory.array) }
{
    let factory = [0u8; 64];
    slipknoll::slipknoll_fresh(block, &factory, &mut array[..n]);
}

// A fresh part of `n` bytes; nothing was lent, whatever log and get buffer or reply stand beside it.
fn part(s: Session, n: usize, block: &mut [u8; 765], array: &mut [u8]) -> Session
    requires { (length array.old ≡ array_room) × Whole n }
    ensures { ((log out : List ℕ) → desk_of result block.new array.new log out ≡ renewed n (desk_of s block.old array.old log out)) × (result.output ≡ s.output) }
{
    renew(n, block, array);
    after_step(s, n, 0, 0, 0, s.output)
}

// The program starts with a fresh short part. It is lent no more than that takes: the record block and room for an array.
pub fn start(block: &mut [u8; 765], array: &mut [u8]) -> Session
    requires { length array.old ≡ array_room }
    ensures { ((log out : List ℕ) → desk_of result block.new array.new log out ≡ begun) × (result.output ≡ record { waiting = 0; written = 0; failed = false }) }
{
    let none = Session {
        size: 0,
        log: 0,
        out: 0,
        given: 0,
        lines: 0,
        output: printing::nothing(),
    };
    part(none, FIRST_LENGTH, block, array)
}

// The checksums of the last step.
fn sum(stdout: Stdout, s: Session, room: &Room, text: &mut [u8]) -> Session
    requires { 128 ≤ length text.old }
    ensures { (result ≡ with_output s result.output) × Printed (summed (desk_in s room.now)) s.output text.old result.output text.new }
{
    let n = count(s.size, &room.array);
    let l = count(s.log, &room.log);
    let o = count(s.out, &room.out);
    let p = printing::print_sum(
        stdout,
        s.output,
        text,
        &room.block,
        &room.array[..n],
        &room.log[..l],
        &room.out[..o],
        s.given,
    );
    with_output(s, p)
}

// What is wrong with the line.
fn tell(stdout: Stdout, s: Session, f: Fault, text: &mut [u8]) -> Session
    requires { 128 ≤ length text.old }
    ensures { (result ≡ with_output s result.output) × Printed (fault_text s.lines (text_of f)) s.output text.old result.output text.new }
{
    let mut message = [0u8; 64];
    let k = orders::message(f, &mut message);
    let p = printing::print_fault(stdout, s.output, text, s.lines, &message[..k]);
    with_output(s, p)
}

// ---- a line

fn is_step(c: Command) -> bool
    ensures { result ≡ is_step c }
{
    !matches!(c, Command::Part | Command::Sum)
}

fn is_sum(c: Command) -> bool
    ensures { result ≡ is_sum c }
{
    matches!(c, Command::Sum)
}

// The order `o` of a line.
fn obey(
    stdout: Stdout,
    o: Order,
    s: Session,
    line: &[u8],
    room: &mut Room,
    text: &mut [u8],
) -> Session
    requires { (128 ≤ length text.old) × Sound (length line.now) o }
    ensures { Obeys (obeyed o line.now (desk_in s room.old)) (shown o line.now (desk_in s room.old)) s text.old result room.new text.new }
{
    let command = o.command;
    if is_step(command) {
        return step(stdout, o, s, line, room, text);
    }
    if is_sum(command) {
        return sum(stdout, s, room, text);
    }
    part(s, o.number, &mut room.block, &mut room.array)
}

// A line is whole: it is acted on, or what is wrong with it is printed.
pub fn act_on(stdout: Stdout, s: Session, line: &[u8], room: &mut Room, text: &mut [u8]) -> Session
    requires { 128 ≤ length text.old }
    ensures { Obeys (after_line line.now (desk_in s room.old)) (line_text line.now (desk_in s room.old)) s text.old result room.new text.new }
{
    let t = next_line(s);
    match orders::read(line) {
        Ok(o) => obey(stdout, o, t, line, room, text),
        Err(f) => tell(stdout, t, f, text),
    }
}
