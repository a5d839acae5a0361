// The text that the program `outline` prints: it waits in a buffer until that is full, and is then written.
// Internal to this repository: a caller here meets each `requires`; no entry point is in this crate.
#![tactic(auto)]

ghost use Rattle.std.specs.Prelude.{◌≡◌, ◌/◌, ◌≤◌, ◌<◌, min, true, false, ◌++◌, length};
ghost use Rattle.lines.specs.Texts.{frame_text, answer_text, totals_text, fault_text};
ghost use Rattle.printing.specs.Held.{Printed, Flushed};
ghost use Rattle.printing.specs.Texts.{frames_text, call_text, checksum, sum_line};

use lines::{count, put};
use std::io::{Print, Stderr, Stdout};

// How often a write that takes nothing is tried again, whatever the system says of it: one that was interrupted or came too soon is not told
// from one that fails for good.
const TRIES: u32 = 33_554_432;

// `Held` and `Flushed` speak of each field, so a failure is a field beside the counts, which stay true after it.
#[derive(Clone, Copy)]
pub struct Output {
    // How many bytes of text wait to be written.
    pub waiting: usize,
    // How many bytes the system has taken.
    pub written: u64,
    // Whether writing has failed for good: then nothing more is written.
    pub failed: bool,
}

// Nothing is written, and nothing waits.
pub fn nothing() -> Output
    ensures { result ≡ record { waiting = 0; written = 0; failed = false } }
{
    Output {
        waiting: 0,
        written: 0,
        failed: false,
    }
}

// ---- writing

// One write of the bytes to standard output; how many of them the system took.
fn write_once(stdout: Stdout, bytes: &[u8]) -> usize
    ensures { result ≤ length bytes.now }
{
    stdout.write_some(bytes).unwrap_or(0)
}

// The same, tried again while it takes nothing; 0 where it fails for good.
fn write_some(stdout: Stdout, bytes: &[u8]) -> usize
    ensures { result ≤ length bytes.now }
{
    for _ in 0..TRIES {
        let k = write_once(stdout, bytes);
        if k > 0 {
            return k;
        }
    }
    0
}

// All of the text, each write going on where the one before it stopped; how many bytes were taken: all, unless writing fails for good.
fn write_all(stdout: Stdout, text: &[u8]) -> usize
    ensures { result ≤ length text.now }
{
    let mut done = 0;
    // A `while`, since each turn goes on by as much as the system took.
    while done < text.len() {
        let k = write_some(stdout, &text[done..]);
        if k == 0 {
            return done;
        }
        done += k;
    }
    done
}

// Everything that waits is written. A count that has no room for it is a failure too.
pub fn flush(stdout: Stdout, o: Output, text: &[u8]) -> Output
    ensures { Flushed o text.now result }
{
    if o.failed {
        return o;
    }
    let n = count(o.waiting, text);
    let room = u64::MAX - o.written;
    if room < n as u64 {
        return Output { failed: true, ..o };
    }
    let k = write_all(stdout, &text[..n]);
    Output {
        waiting: n - k,
        written: o.written + k as u64,
        failed: k < n,
    }
}

// A line is put behind the text that waits; where it has no room there, what waits is written first.
fn emit(stdout: Stdout, o: Output, text: &mut [u8], line: &[u8]) -> Output
    requires { length line.now ≤ length text.old }
    ensures { Printed line.now o text.old result text.new }
{
    let at = count(o.waiting, text);
    if line.len() <= text.len() - at {
        let end = put(text, at, line);
        return Output { waiting: end, ..o };
    }
    let p = flush(stdout, o, text);
    if p.failed {
        return p;
    }
    let end = put(text, 0, line);
    Output { waiting: end, ..p }
}

// A message on standard error; how many of its bytes the system took.
pub fn complain(stderr: Stderr, message: &[u8]) -> usize
    ensures { result ≤ length message.now }
{
    stderr.write_some(message).unwrap_or(0)
}

// ---- lines

// Each takes the output and the buffer apart, since `Printed` speaks of both before and after; and each has a writer of its own.

fn print_frame(stdout: Stdout, o: Output, text: &mut [u8], entry: &[u8]) -> Output
    requires { 128 ≤ length text.old }
    ensures { Printed (frame_text entry.now) o text.old result text.new }
{
    let mut out = [0; 128];
    let k = lines::write_frame(&mut out, entry);
    emit(stdout, o, text, &out[..k])
}

// A line for each of the frames that the log has whole.
fn print_frames(stdout: Stdout, start: Output, text: &mut [u8], log: &[u8], frames: usize) -> Output
    requires { 128 ≤ length text.old }
    ensures { Printed (frames_text (min frames (length log.now / 6)) log.now) start text.old result text.new }
{
    let mut o = start;
    for entry in log.chunks_exact(6).take(frames) {
        o = print_frame(stdout, o, text, entry);
    }
    o
}

fn print_totals(
    stdout: Stdout,
    o: Output,
    text: &mut [u8],
    frames: u64,
    polls: u64,
    answer: u8,
) -> Output
    requires { 128 ≤ length text.old }
    ensures { Printed (totals_text frames polls answer) o text.old result text.new }
{
    let mut out = [0; 128];
    let k = lines::write_totals(&mut out, frames, polls, answer);
    emit(stdout, o, text, &out[..k])
}

// What a call has sent, and its totals.
pub fn print_call(
    stdout: Stdout,
    o: Output,
    text: &mut [u8],
    log: &[u8],
    frames: u64,
    polls: u64,
    answer: u8,
) -> Output
    requires { 128 ≤ length text.old }
    ensures { Printed (call_text log.now frames polls answer) o text.old result text.new }
{
    let p = print_frames(stdout, o, text, log, frames as usize);
    print_totals(stdout, p, text, frames, polls, answer)
}

pub fn print_answer(stdout: Stdout, o: Output, text: &mut [u8], answer: u8) -> Output
    requires { 128 ≤ length text.old }
    ensures { Printed (answer_text answer) o text.old result text.new }
{
    let mut out = [0; 128];
    let k = lines::write_answer(&mut out, answer);
    emit(stdout, o, text, &out[..k])
}

// The CRC-32 of `bytes`.
fn check_of(bytes: &[u8]) -> u32
    ensures { result ≡ checksum bytes.now }
{
    checksum::crc_end(checksum::crc(checksum::CRC_START, bytes))
}

// The CRC-32 of the record block followed by the array.
fn check_of_chip(block: &[u8; 765], array: &[u8]) -> u32
    ensures { result ≡ checksum (block.now ++ array.now) }
{
    checksum::crc_end(checksum::crc(checksum::crc(checksum::CRC_START, block), array))
}

// The checksums of the record block and the array, of the lent log, and of the lent get buffer or reply; and what a get gave.
pub fn print_sum(
    stdout: Stdout,
    o: Output,
    text: &mut [u8],
    block: &[u8; 765],
    array: &[u8],
    log: &[u8],
    lent: &[u8],
    given: u64,
) -> Output
    requires { 128 ≤ length text.old }
    ensures { Printed (sum_line block.now array.now log.now lent.now given) o text.old result text.new }
{
    let state = check_of_chip(block, array);
    let l = check_of(log);
    let g = check_of(lent);
    let mut out = [0; 128];
    let k = lines::write_sum(&mut out, state, l, g, given);
    emit(stdout, o, text, &out[..k])
}

// A line that cannot be read: its number, and what is wrong.
pub fn print_fault(
    stdout: Stdout,
    o: Output,
    text: &mut [u8],
    number: u64,
    message: &[u8],
) -> Output
    requires { (length message.now ≤ 64) × (128 ≤ length text.old) }
    ensures { Printed (fault_text number message.now) o text.old result text.new }
{
    let mut out = [0; 128];
    let k = lines::write_fault(&mut out, number, message);
    emit(stdout, o, text, &out[..k])
}
