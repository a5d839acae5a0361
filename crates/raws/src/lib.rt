// The call raw: one frame of the caller's on the chip in its record block, in place; no wait and no poll limit. It has no `requires`: bad input is
// refused, and a refusal changes nothing.
#![tactic(auto)]

ghost use Rattle.std.specs.Prelude.{◌≡◌, length, Some};
ghost use Rattle.state.specs.Answers.{number_of};
ghost use Rattle.state.specs.Outcomes.{part_in};
ghost use Rattle.slots.specs.Refusals.{raw_refusal};
ghost use Rattle.slots.specs.Lists.{Op};
ghost use Rattle.blocks.specs.Promises.{held_in};
ghost use Rattle.runs.specs.Promises.{Promise};

use geometry::Geometry;
use runs::Done;
use state::Answer;

// Sends one frame of the caller's, and writes its reply to the lent buffer, which is as long.
pub fn raw(
    block: &mut [u8; 765],
    array: &mut [u8],
    frame: &[u8],
    reply: &mut [u8],
    script: &[u8],
    junk: &[u8],
    log: &mut [u8],
) -> Done
    ensures { Promise (Op.raw frame.now script.now junk.now log.old reply.old) block.old array.old result block.new array.new log.new reply.new }
{
    match registers::place(array.len(), blocks::operation(block)) {
        Some(g) => {
            let n = reply.len();
            match refusals::raw_refusal(g, array.len(), frame, n, log.len(), script, junk.len()) {
                Answer::Done => raw_sent(g, block, array, frame, reply, script, junk, log),
                early => endings::refuse(early),
            }
        }
        None => endings::refuse(Answer::Part),
    }
}

// One frame of the caller's, and its script byte; 2 is a cut.
fn raw_sent(
    g: Geometry,
    block: &mut [u8; 765],
    array: &mut [u8],
    frame: &[u8],
    reply: &mut [u8],
    script: &[u8],
    junk: &[u8],
    log: &mut [u8],
) -> Done
    requires { (part_in (held_in block.old array.old) ≡ Some g) × (number_of (raw_refusal g (length array.old) frame.now (length reply.old) (length log.old) script.now (length junk.now)) ≡ 0) }
    ensures { Promise (Op.raw frame.now script.now junk.now log.old reply.old) block.old array.old result block.new array.new log.new reply.new }
{
    let b = slices::byte_or(script, 0, 0);
    exchanges::exchange(g, block, array, frame, reply, log, 0, b);
    let sent = Done {
        answer: Answer::Done,
        frames: 1,
        polls: 0,
        count: 0,
    };
    if b == 2 {
        exchanges::cut(g, block, array, junk);
        return Done {
            answer: Answer::Cut,
            ..sent
        };
    }
    sent
}
