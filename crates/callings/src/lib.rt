// A call of any kind on the chip in its record block, in place: the tests, the run, and what comes behind it.
// The function named to others has no `requires`: bad input is refused, and a refusal changes nothing. The entry points are in crate calls.
#![tactic(auto)]

ghost use Rattle.std.specs.Prelude.{◌≡◌, Some};
ghost use Rattle.state.specs.Outcomes.{part_in};
ghost use Rattle.slots.specs.Lists.{Op, asking};
ghost use Rattle.blocks.specs.Promises.{held_in};
ghost use Rattle.runs.specs.Promises.{Promise};
ghost use Rattle.runs.specs.Runs.{Started, RunBy};

use geometry::Geometry;
use runs::{Done, Session};
use slots::{Driver, Request};
use state::Answer;

// The call of a kind. What is lent comes one by one, as the C interface has it: a struct of references would be no plainer, since each function that
// takes it would have to say that every `&mut` in it stays the same reference.
pub fn call(
    block: &mut [u8; 765],
    array: &mut [u8],
    r: Request,
    payload: &[u8],
    buffer: &mut [u8],
    script: &[u8],
    junk: &[u8],
    log: &mut [u8],
) -> Done
    ensures { Promise (Op.call (asking r.kind r.slot r.limit) r.detail script.now payload.now junk.now log.old buffer.old) block.old array.old result block.new array.new log.new buffer.new }
{
    match registers::place(array.len(), blocks::operation(block)) {
        Some(g) => call_in(g, block, array, r, payload, buffer, script, junk, log),
        None => endings::refuse(Answer::Part),
    }
}

// A call on a known part: the tests, the run, and what comes behind it.
fn call_in(
    g: Geometry,
    block: &mut [u8; 765],
    array: &mut [u8],
    r: Request,
    payload: &[u8],
    buffer: &mut [u8],
    script: &[u8],
    junk: &[u8],
    log: &mut [u8],
) -> Done
    requires { part_in (held_in block.old array.old) ≡ Some g }
    ensures { Promise (Op.call (asking r.kind r.slot r.limit) r.detail script.now payload.now junk.now log.old buffer.old) block.old array.old result block.new array.new log.new buffer.new }
{
    let n = payload.len();
    let lent = buffer.len();
    match refusals::call_refusal(g, array.len(), r, n, lent, log.len(), script, junk.len()) {
        Answer::Done => {
            let d = starts::start(array.len(), r, n, lent);
            run(g, d, block, array, payload, buffer, script, junk, log)
        }
        early => endings::refuse(early),
    }
}

// A call that is not refused, whose driver starts as d.
fn run(
    g: Geometry,
    d: Driver,
    block: &mut [u8; 765],
    array: &mut [u8],
    payload: &[u8],
    buffer: &mut [u8],
    script: &[u8],
    junk: &[u8],
    log: &mut [u8],
) -> Done
    requires { (part_in (held_in block.old array.old) ≡ Some g) × (Started g d array.old script.now junk.now log.old) }
    ensures { RunBy g d payload.now buffer.old script.now junk.now log.old block.old array.old result block.new array.new log.new buffer.new }
{
    let mut staged = [0; 2112];
    let s = Session {
        driver: d,
        frames: 0,
        polls: 0,
        cut: false,
    };
    let e = sessions::drive(g, s, block, array, payload, &mut staged, script, log);
    let a = endings::answer(e);
    let n = endings::deliver(d.kind, a, &staged, buffer);
    endings::lose(g, e, block, array, junk);
    Done {
        answer: a,
        frames: e.frames,
        polls: e.polls,
        count: n,
    }
}
