// The C interface: a chip held in a record block of 765 bytes, its array lent by the caller; the calls of the slot driver on it; and
// the driver by itself, its state held in a block of 72 bytes.
// include/slipknoll.h documents it.
// Each function on a chip returns the answer's number (docs/SPECIFICATION.md, 12); no function has a `requires`.
#![tactic(auto)]

ghost use Rattle.std.specs.Prelude.{◌≡◌, [], ◌≤◌, ◌-◌, length, take};
ghost use Rattle.geometry.specs.Parts.{slot_room};
ghost use Rattle.slices.specs.Lists.{over};
ghost use Rattle.state.specs.Outcomes.{fresh_outcome, send_outcome, end_outcome, cut_outcome};
ghost use Rattle.blocks.specs.Promises.{held_in, Met, MetFresh, MetPin};
ghost use Rattle.dates.specs.Calendar.{date};
ghost use Rattle.slots.specs.Details.{storing, changing, reading, untold};
ghost use Rattle.slots.specs.Lists.{Op, asking, put, patch, get, wipe};
ghost use Rattle.worlds.specs.Start.{start_driver};
ghost use Rattle.worlds.specs.Step.{frame_in, staged_in, took_in, next_in, told_in, count_in};
ghost use Rattle.driver_blocks.specs.Block.{told_number, decode_driver, encode_driver};
ghost use Rattle.runs.specs.Promises.{Called};

use dates::{Date, Term};
use slots::Kind;

// A fresh chip with these factory bytes; the array becomes FFh. Answers 0, 1.
pub fn slipknoll_fresh(block: &mut [u8; 765], factory: &[u8; 64], array: &mut [u8]) -> u8
    ensures { MetFresh block.old (fresh_outcome factory.now array.old) result block.new array.new }
{
    inplace::fresh(block, factory, array)
}

// A frame sent straight to the chip; the reply is as long. Answers 0, 1, 2.
pub fn slipknoll_send(block: &mut [u8; 765], array: &[u8], frame: &[u8], reply: &mut [u8]) -> u8
    ensures { Met block.old (send_outcome (held_in block.old array.now) frame.now reply.old) result block.new array.now reply.new }
{
    inplace::send(block, array, frame, reply)
}

// The operation under way ends and takes effect. Answers 0, 1.
pub fn slipknoll_end_busy(block: &mut [u8; 765], array: &mut [u8]) -> u8
    ensures { Met block.old (end_outcome (held_in block.old array.old)) result block.new array.new [] }
{
    inplace::end_busy(block, array)
}

// The WP pin is moved. Answer 0.
pub fn slipknoll_move_pin(block: &mut [u8; 765], high: bool) -> u8
    ensures { MetPin block.old high result block.new }
{
    inplace::move_pin(block, high)
}

// The supply is cut, with junk. Answers 0, 1, 7.
pub fn slipknoll_cut(block: &mut [u8; 765], array: &mut [u8], junk: &[u8]) -> u8
    ensures { Met block.old (cut_outcome junk.now (held_in block.old array.old)) result block.new array.new [] }
{
    inplace::cut(block, array, junk)
}

// ---- the calls. `counts` gets frames, polls and n. Answers 0 to 16.

// A recipe stored in a slot.
pub fn slipknoll_put(
    block: &mut [u8; 765],
    array: &mut [u8],
    slot: usize,
    limit: usize,
    recipe: &[u8],
    script: &[u8],
    junk: &[u8],
    log: &mut [u8],
    counts: &mut [u64; 3],
) -> u8
    ensures { Called (put slot limit Term.Unlimited script.now recipe.now junk.now log.old) block.old array.old result block.new array.new log.new counts.new [] }
{
    let d = calls::put(
        block,
        array,
        slot,
        limit,
        Term::Unlimited,
        recipe,
        script,
        junk,
        log,
    );
    calls::tell(counts, d)
}

// A recipe stored in a slot with a term: its first and its last day, both inside.
pub fn slipknoll_put_term(
    block: &mut [u8; 765],
    array: &mut [u8],
    slot: usize,
    limit: usize,
    first_year: u32,
    first_month: u32,
    first_day: u32,
    last_year: u32,
    last_month: u32,
    last_day: u32,
    recipe: &[u8],
    script: &[u8],
    junk: &[u8],
    log: &mut [u8],
    counts: &mut [u64; 3],
) -> u8
    ensures { Called (put slot limit (Term.Between (date first_year first_month first_day) (date last_year last_month last_day)) script.now recipe.now junk.now log.old) block.old array.old result block.new array.new log.new counts.new [] }
{
    let first = Date {
        year: first_year,
        month: first_month,
        day: first_day,
    };
    let last = Date {
        year: last_year,
        month: last_month,
        day: last_day,
    };
    let term = Term::Between {
        first: first,
        last: last,
    };
    let d = calls::put(block, array, slot, limit, term, recipe, script, junk, log);
    calls::tell(counts, d)
}

// Bytes put at a place of the stored recipe.
pub fn slipknoll_patch(
    block: &mut [u8; 765],
    array: &mut [u8],
    slot: usize,
    limit: usize,
    place: usize,
    bytes: &[u8],
    script: &[u8],
    junk: &[u8],
    log: &mut [u8],
    counts: &mut [u64; 3],
) -> u8
    ensures { Called (patch slot limit place script.now bytes.now junk.now log.old) block.old array.old result block.new array.new log.new counts.new [] }
{
    let d = calls::patch(block, array, slot, limit, place, bytes, script, junk, log);
    calls::tell(counts, d)
}

// The stored recipe read into the lent buffer, under answer 0 only; year, month and day are today's date.
pub fn slipknoll_get(
    block: &mut [u8; 765],
    array: &mut [u8],
    slot: usize,
    limit: usize,
    year: u32,
    month: u32,
    day: u32,
    buffer: &mut [u8],
    script: &[u8],
    junk: &[u8],
    log: &mut [u8],
    counts: &mut [u64; 3],
) -> u8
    ensures { Called (get slot limit (date year month day) script.now junk.now log.old buffer.old) block.old array.old result block.new array.new log.new counts.new buffer.new }
{
    let today = Date {
        year: year,
        month: month,
        day: day,
    };
    let d = calls::get(block, array, slot, limit, today, buffer, script, junk, log);
    calls::tell(counts, d)
}

// A slot erased.
pub fn slipknoll_wipe(
    block: &mut [u8; 765],
    array: &mut [u8],
    slot: usize,
    limit: usize,
    script: &[u8],
    junk: &[u8],
    log: &mut [u8],
    counts: &mut [u64; 3],
) -> u8
    ensures { Called (wipe slot limit script.now junk.now log.old) block.old array.old result block.new array.new log.new counts.new [] }
{
    let d = calls::wipe(block, array, slot, limit, script, junk, log);
    calls::tell(counts, d)
}

// One frame of the caller's, its reply in the lent buffer.
pub fn slipknoll_raw(
    block: &mut [u8; 765],
    array: &mut [u8],
    frame: &[u8],
    reply: &mut [u8],
    script: &[u8],
    junk: &[u8],
    log: &mut [u8],
    counts: &mut [u64; 3],
) -> u8
    ensures { Called (Op.raw frame.now script.now junk.now log.old reply.old) block.old array.old result block.new array.new log.new counts.new reply.new }
{
    let d = raws::raw(block, array, frame, reply, script, junk, log);
    calls::tell(counts, d)
}

// ---- the driver by itself: its state in a block of 72 bytes, for a chip whose array has `array` bytes. A refused call starts at its end.

// A put of a recipe.
pub fn slipknoll_driver_start_put(
    state: &mut [u8; 72],
    array: usize,
    slot: usize,
    limit: usize,
    recipe: &[u8],
)
    ensures { state.new ≡ encode_driver (start_driver array (asking Kind.Put slot limit) (storing Term.Unlimited) (length recipe.now) 0) }
{
    let d = openings::start_put(array, slot, limit, Term::Unlimited, recipe);
    driver_storing::encode(state, d);
}

// A put of a recipe with a term.
pub fn slipknoll_driver_start_put_term(
    state: &mut [u8; 72],
    array: usize,
    slot: usize,
    limit: usize,
    first_year: u32,
    first_month: u32,
    first_day: u32,
    last_year: u32,
    last_month: u32,
    last_day: u32,
    recipe: &[u8],
)
    ensures { state.new ≡ encode_driver (start_driver array (asking Kind.Put slot limit) (storing (Term.Between (date first_year first_month first_day) (date last_year last_month last_day))) (length recipe.now) 0) }
{
    let first = Date {
        year: first_year,
        month: first_month,
        day: first_day,
    };
    let last = Date {
        year: last_year,
        month: last_month,
        day: last_day,
    };
    let term = Term::Between {
        first: first,
        last: last,
    };
    let d = openings::start_put(array, slot, limit, term, recipe);
    driver_storing::encode(state, d);
}

// A patch of bytes at a place of the recipe.
pub fn slipknoll_driver_start_patch(
    state: &mut [u8; 72],
    array: usize,
    slot: usize,
    limit: usize,
    place: usize,
    bytes: &[u8],
)
    ensures { state.new ≡ encode_driver (start_driver array (asking Kind.Patch slot limit) (changing place) (length bytes.now) 0) }
{
    let d = openings::start_patch(array, slot, limit, place, bytes);
    driver_storing::encode(state, d);
}

// A get on this date into a buffer of `buffer` bytes.
pub fn slipknoll_driver_start_get(
    state: &mut [u8; 72],
    array: usize,
    slot: usize,
    limit: usize,
    year: u32,
    month: u32,
    day: u32,
    buffer: usize,
)
    ensures { state.new ≡ encode_driver (start_driver array (asking Kind.Get slot limit) (reading (date year month day)) 0 buffer) }
{
    let today = Date {
        year: year,
        month: month,
        day: day,
    };
    let d = openings::start_get(array, slot, limit, today, buffer);
    driver_storing::encode(state, d);
}

// A wipe of a slot.
pub fn slipknoll_driver_start_wipe(state: &mut [u8; 72], array: usize, slot: usize, limit: usize)
    ensures { state.new ≡ encode_driver (start_driver array (asking Kind.Wipe slot limit) untold 0 0) }
{
    let d = openings::start_wipe(array, slot, limit);
    driver_storing::encode(state, d);
}

// The frame to send, at the beginning of the lent buffer, which keeps its other bytes; its length is the result, 0 at the end. `payload`
// is the recipe or the patch, `staged` the bytes of the slot read so far.
pub fn slipknoll_driver_frame(
    state: &[u8; 72],
    payload: &[u8],
    staged: &[u8; 2112],
    frame: &mut [u8; 272],
) -> usize
    ensures { (result ≡ length (frame_in (decode_driver state.now) payload.now staged.now)) × (take result frame.new ≡ frame_in (decode_driver state.now) payload.now staged.now) × (frame.new ≡ over (frame_in (decode_driver state.now) payload.now staged.now) frame.old) }
{
    let d = driver_blocks::decode(state);
    driver::write_frame(d, payload, staged, frame)
}

// Given the last reply, the next state and the next frame; the bytes that a reply to D2 carries go among those read so far. The frame's
// length is the result, 0 at the end.
pub fn slipknoll_driver_next(
    state: &mut [u8; 72],
    payload: &[u8],
    reply: &[u8],
    staged: &mut [u8; 2112],
    frame: &mut [u8; 272],
) -> usize
    ensures { (result ≡ length (next_in (decode_driver state.old) payload.now staged.old reply.now)) × (state.new ≡ encode_driver (took_in (decode_driver state.old) payload.now staged.old reply.now)) × (staged.new ≡ staged_in (decode_driver state.old) payload.now staged.old reply.now) × (frame.new ≡ over (next_in (decode_driver state.old) payload.now staged.old reply.now) frame.old) }
{
    let d = driver_blocks::decode(state);
    let n = driver::next_frame(d, payload, reply, staged, frame);
    let e = n.driver;
    driver_storing::encode(state, e);
    n.length
}

// The answer's number; 255 while the call is running.
pub fn slipknoll_driver_answer(state: &[u8; 72]) -> u8
    ensures { result ≡ told_number (told_in (decode_driver state.now)) }
{
    let d = driver_blocks::decode(state);
    let t = results::answer(d);
    driver_storing::told_number(t)
}

// Of a get that has ended with 0 the recipe's length, else 0; the recipe stands in `staged` behind the head.
pub fn slipknoll_driver_count(state: &[u8; 72], staged: &[u8; 2112]) -> usize
    ensures { (result ≡ count_in (decode_driver state.now) staged.now) × (result ≤ slot_room - 3) }
{
    let d = driver_blocks::decode(state);
    results::count(d, staged)
}
