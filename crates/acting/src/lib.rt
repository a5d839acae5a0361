// What a line's order does to the chip: the junk of its seed and the buffers that it lends are made ready, and the call or event is carried out.
// Internal to this repository: a caller here meets each `requires`; no entry point is in this crate.
#![tactic(auto)]

ghost use Rattle.std.specs.Prelude.{true, ◌≡◌, length};
ghost use Rattle.contents.specs.Junk.{junk_of};
ghost use Rattle.lengths.specs.Lengths.{Lends};
ghost use Rattle.acting.specs.Steps.{is_step, seed_of, blank, op_of, seen_by, Took};

use orders::{Command, Order};

mod effects;

// The byte that lent buffers hold before each step.
const UNWRITTEN: u8 = 0xA5;

// The answer's number, and a call's frames, polls and n; an event has none of these.
#[derive(Clone, Copy)]
pub struct Totals {
    pub answer: u8,
    pub frames: u64,
    pub polls: u64,
    pub given: u64,
}

// The junk's seed: that of the cut, else the option's.
fn seed(o: Order) -> usize
    ensures { result ≡ seed_of o }
{
    match o.command {
        Command::Cut => o.number,
        _ => o.seed,
    }
}

// Before a step the junk is that of its seed, and every byte of the lent buffers is A5h.
fn make_ready(seed: usize, junk: &mut [u8], log: &mut [u8], out: &mut [u8])
    ensures { (junk.new ≡ junk_of seed (length junk.old)) × (log.new ≡ blank (length log.old)) × (out.new ≡ blank (length out.old)) }
{
    contents::fill_junk(junk, seed);
    slices::fill(log, UNWRITTEN);
    slices::fill(out, UNWRITTEN);
}

// The junk and the lent buffers are made ready, and the call or event is carried out.
pub fn take_step(
    o: Order,
    block: &mut [u8; 765],
    array: &mut [u8],
    bytes: &[u8],
    script: &[u8],
    junk: &mut [u8],
    log: &mut [u8],
    out: &mut [u8],
) -> Totals
    requires { (is_step o.command ≡ true) × Lends o (length array.old) (length bytes.now) (length junk.old) (length log.old) (length out.old) }
    ensures { Took (seen_by (op_of o bytes.now script.now (junk_of (seed_of o) (length junk.old)) (blank (length log.old)) (blank (length out.old))) block.old array.old) result block.new array.new log.new out.new }
{
    make_ready(seed(o), junk, log, out);
    let mut counts = [0u64; 3];
    let answer = effects::act(o, block, array, bytes, script, junk, log, out, &mut counts);
    Totals {
        answer,
        frames: counts[0],
        polls: counts[1],
        given: counts[2],
    }
}
