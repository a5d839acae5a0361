// One frame on a chip whose part is known, in its record block: sent, logged, and its script byte acted on; and a cut.
// Internal to this repository: a caller here meets each `requires`; no entry point is in this crate.
#![tactic(auto)]

ghost use Rattle.std.specs.Prelude.{◌≡◌, true, ◌+◌, ◌≤◌, length, Some};
ghost use Rattle.slices.specs.Lists.{splice};
ghost use Rattle.state.specs.Outcomes.{part_in, framed, cut_fits, cut_state};
ghost use Rattle.slots.specs.Calls.{outline, state_after};
ghost use Rattle.blocks.specs.Promises.{held_in};
ghost use Rattle.runs.specs.Exchange.{Canonical, Exchanged};

use geometry::Geometry;
use registers::Operation;

// The six bytes of a frame in the log, from index `at` on.
fn put_outline(log: &mut [u8], at: usize, frame: &[u8])
    requires { (at + 6 ≤ length log.old) × (length frame.now ≤ 1100) }
    ensures { log.new ≡ splice at (outline frame.now) log.old }
{
    let n = frame.len();
    log[at] = (n / 256) as u8;
    log[at + 1] = (n % 256) as u8;
    log[at + 2] = slices::byte_or(frame, 0, 255);
    log[at + 3] = slices::byte_or(frame, 1, 255);
    log[at + 4] = slices::byte_or(frame, 2, 255);
    log[at + 5] = slices::byte_or(frame, 3, 255);
}

// The script's byte acts: 0 ends a busy period, if there is one. A cut, 2, is left to the call's end.
fn settle(g: Geometry, block: &mut [u8; 765], array: &mut [u8], b: u8)
    requires { (part_in (held_in block.old array.old) ≡ Some g) × (Canonical block.old) }
    ensures { (held_in block.new array.new ≡ state_after g b (held_in block.old array.old)) × (Canonical block.new) }
{
    if b != 0 {
        return;
    }
    if let Operation::Idle = blocks::operation(block) {
        return;
    }
    inplace::end_busy(block, array);
}

// The frame sent, its reply in the lent buffer, its outline in the log from index `at` on, and its script byte b.
pub fn exchange(
    g: Geometry,
    block: &mut [u8; 765],
    array: &mut [u8],
    frame: &[u8],
    reply: &mut [u8],
    log: &mut [u8],
    at: usize,
    b: u8,
)
    requires { (part_in (held_in block.old array.old) ≡ Some g) × (framed (length frame.now) (length reply.old) ≡ true) × (at + 6 ≤ length log.old) }
    ensures { (Exchanged g b at frame.now (held_in block.old array.old) log.old (held_in block.new array.new) reply.new log.new) × (Canonical block.new) }
{
    inplace::send(block, array, frame, reply);
    put_outline(log, at, frame);
    settle(g, block, array, b);
}

// The supply is cut, with junk as long as it has to be.
pub fn cut(g: Geometry, block: &mut [u8; 765], array: &mut [u8], junk: &[u8])
    requires { (part_in (held_in block.old array.old) ≡ Some g) × (cut_fits g (length array.old) (length junk.now) ≡ true) }
    ensures { (held_in block.new array.new ≡ cut_state g junk.now (held_in block.old array.old)) × (Canonical block.new) }
{
    inplace::cut(block, array, junk);
}
