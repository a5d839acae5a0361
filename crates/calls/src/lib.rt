// The calls on the chip that go by a plan (docs/SPECIFICATION.md, 10 to 12): put, patch, get and wipe. None has a `requires`: bad input is refused, and a refusal
// changes nothing. Each works on the chip in its record block, in place, and takes the array as a lent slice; a script with a byte for
// each frame, the junk that a cut takes, and a log for six bytes a frame. All take a slot and the poll limit. They stay four: each is a call of the
// specification with its own arguments, and the C interface has one function for each.
#![tactic(auto)]

ghost use Rattle.std.specs.Prelude.{◌≡◌, []};
ghost use Rattle.state.specs.Answers.{number_of};
ghost use Rattle.slots.specs.Lists.{put, patch, get, wipe};
ghost use Rattle.runs.specs.Promises.{counts_of, Promise};

use dates::{Date, Term};
use runs::Done;
use slots::{Kind, Request};
use state::Answer;

// The recipe is stored in the slot with its term.
pub fn put(
    block: &mut [u8; 765],
    array: &mut [u8],
    slot: usize,
    limit: usize,
    term: Term,
    recipe: &[u8],
    script: &[u8],
    junk: &[u8],
    log: &mut [u8],
) -> Done
    ensures { Promise (put slot limit term script.now recipe.now junk.now log.old) block.old array.old result block.new array.new log.new [] }
{
    let r = Request {
        kind: Kind::Put,
        slot,
        limit,
        detail: starts::storing(term),
    };
    callings::call(block, array, r, recipe, &mut [], script, junk, log)
}

// The bytes are put at a place of the stored recipe, counted from its first byte.
pub fn patch(
    block: &mut [u8; 765],
    array: &mut [u8],
    slot: usize,
    limit: usize,
    place: usize,
    bytes: &[u8],
    script: &[u8],
    junk: &[u8],
    log: &mut [u8],
) -> Done
    ensures { Promise (patch slot limit place script.now bytes.now junk.now log.old) block.old array.old result block.new array.new log.new [] }
{
    let r = Request {
        kind: Kind::Patch,
        slot,
        limit,
        detail: starts::changing(place),
    };
    callings::call(block, array, r, bytes, &mut [], script, junk, log)
}

// The recipe goes to the lent buffer, and its length to the result, if today is inside its term.
pub fn get(
    block: &mut [u8; 765],
    array: &mut [u8],
    slot: usize,
    limit: usize,
    today: Date,
    buffer: &mut [u8],
    script: &[u8],
    junk: &[u8],
    log: &mut [u8],
) -> Done
    ensures { Promise (get slot limit today script.now junk.now log.old buffer.old) block.old array.old result block.new array.new log.new buffer.new }
{
    let r = Request {
        kind: Kind::Get,
        slot,
        limit,
        detail: starts::reading(today),
    };
    callings::call(block, array, r, &[], buffer, script, junk, log)
}

// The slot is erased.
pub fn wipe(
    block: &mut [u8; 765],
    array: &mut [u8],
    slot: usize,
    limit: usize,
    script: &[u8],
    junk: &[u8],
    log: &mut [u8],
) -> Done
    ensures { Promise (wipe slot limit script.now junk.now log.old) block.old array.old result block.new array.new log.new [] }
{
    let r = Request {
        kind: Kind::Wipe,
        slot,
        limit,
        detail: starts::untold(),
    };
    callings::call(block, array, r, &[], &mut [], script, junk, log)
}

// The answer's number, and frames, polls and n in the lent counts: what a caller of the C interface is told.
pub fn tell(counts: &mut [u64; 3], d: Done) -> u8
    ensures { (result ≡ number_of d.answer) × (counts.new ≡ counts_of d) }
{
    *counts = [d.frames as u64, d.polls as u64, d.count as u64];
    state::number(d.answer)
}
