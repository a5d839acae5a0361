// The lengths that a step lends.
ghost use Rattle.std.specs.Prelude.{◌≡◌, ◌≤◌};
ghost use Rattle.geometry.specs.Parts.{part_of};
ghost use Rattle.lengths.specs.Lengths.{log_room, out_room, junk_room, frames_for, log_for, junk_for, buffer_for, reply_alone, junk_alone, call_lengths, lengths_of};

use crate::room;
use crate::room::{JUNK_ROOM, LOG_ROOM, Lengths, OUT_ROOM};
use orders::{Command, Order};
use slots::Kind;

// The most frames that a call with this poll limit sends.
#[tactic(auto, unfolding(crate::specs::Lengths::frames_for))]
fn frames_for(c: Command, limit: usize) -> usize
    requires { limit ≤ 1000 }
    ensures { (result ≡ frames_for c limit) × (result ≤ 17034) }
{
    match c {
        Command::Put => steps::bound_of(Kind::Put, limit),
        Command::Patch => steps::bound_of(Kind::Patch, limit),
        Command::Get => steps::bound_of(Kind::Get, limit),
        Command::Wipe => steps::bound_of(Kind::Wipe, limit),
        Command::Raw => 1,
        _ => 0,
    }
}

// Six bytes for each frame; a limit over 1,000 counts as 1,000.
#[tactic(auto, unfolding(crate::specs::Lengths::log_for))]
fn log_for(c: Command, limit: usize) -> usize
    ensures { result ≡ log_for c limit }
{
    6 * frames_for(c, limit.min(1000))
}

// The junk that a cut takes: for both buffers and the array, which has `size` bytes.
fn junk_for(size: usize) -> usize
    ensures { (result ≡ junk_for (part_of size) size) × (result ≤ junk_room) }
{
    match geometry::part_of(size) {
        Some(g) => 2 * g.size + size,
        None => 0,
    }
}

// The longest recipe of the part whose array has `size` bytes.
fn buffer_for(size: usize) -> usize
    ensures { result ≡ buffer_for (part_of size) }
{
    match geometry::part_of(size) {
        Some(g) => 8 * g.size - 3,
        None => 0,
    }
}

// A reply of n bytes, and nothing else.
fn reply_alone(n: usize) -> Lengths
    ensures { result ≡ reply_alone n }
{
    Lengths {
        junk: 0,
        log: 0,
        out: n,
    }
}

// Junk of n bytes, and nothing else.
fn junk_alone(n: usize) -> Lengths
    ensures { result ≡ junk_alone n }
{
    Lengths {
        junk: n,
        log: 0,
        out: 0,
    }
}

// A call's junk and log, and `out` bytes for a get buffer or reply.
#[tactic(auto, unfolding(crate::specs::Lengths::call_lengths))]
fn call_lengths(o: Order, size: usize, out: usize) -> Lengths
    ensures { (result ≡ call_lengths o size out) × (result.junk ≤ junk_room) × (result.log ≤ log_room) × (result.out ≡ out) }
{
    Lengths {
        junk: room::lent(o.junk, junk_for(size), JUNK_ROOM),
        log: room::lent(o.log, log_for(o.command, o.limit), LOG_ROOM),
        out,
    }
}

// What the step lends: an array of `size` bytes is the chip's, and HEX has `count` bytes.
#[tactic(auto, unfolding(crate::specs::Lengths::lengths_by))]
pub fn lengths(o: Order, size: usize, count: usize) -> Lengths
    ensures { (result ≡ lengths_of o size count) × (result.junk ≤ junk_room) × (result.log ≤ log_room) × (result.out ≤ out_room) }
{
    match o.command {
        Command::Put | Command::Patch | Command::Wipe => call_lengths(o, size, 0),
        Command::Get => call_lengths(o, size, room::lent(o.buffer, buffer_for(size), OUT_ROOM)),
        Command::Raw => call_lengths(o, size, room::lent(o.reply, count, OUT_ROOM)),
        Command::Send => reply_alone(count.min(OUT_ROOM)),
        Command::Cut => junk_alone(junk_for(size)),
        _ => reply_alone(0),
    }
}
