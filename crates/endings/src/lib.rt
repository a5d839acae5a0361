// What a call does when its run has ended: a get's recipe goes to the lent buffer, and a cut takes the supply.
// Internal to this repository: a caller here meets each `requires`; no entry point is in this crate.
#![tactic(auto)]

ghost use Rattle.std.specs.Prelude.{◌≡◌, true, ◌+◌, length, take, drop, Some};
ghost use Rattle.slices.specs.Lists.{over};
ghost use Rattle.state.specs.Outcomes.{part_in, cut_fits};
ghost use Rattle.slots.specs.Calls.{count_of, delivered, answer_in};
ghost use Rattle.blocks.specs.Promises.{held_in};
ghost use Rattle.runs.specs.Exchange.{Canonical};
ghost use Rattle.runs.specs.Runs.{last_of, answer_of};

use geometry::Geometry;
use runs::{Done, Session};
use slots::Kind;
use state::Answer;

// A call refused: nothing changes.
pub fn refuse(a: Answer) -> Done
    ensures { result ≡ record { answer = a; frames = 0; polls = 0; count = 0 } }
{
    Done {
        answer: a,
        frames: 0,
        polls: 0,
        count: 0,
    }
}

// The answer that a driver tells; a call that was driven to its end has one.
#[tactic(auto, unfolding(slots::specs::Calls::answer_in))]
fn answer_in(t: Option<Answer>) -> Answer
    ensures { result ≡ answer_in t }
{
    t.unwrap_or(Answer::Busy)
}

// The call's answer.
pub fn answer(s: Session) -> Answer
    ensures { result ≡ answer_of s }
{
    answer_in(tellings::tell(s.driver.course.stage, s.driver.verdict))
}

// The buffer begins with the first n of the bytes, as far as both reach.
fn lay_over(buffer: &mut [u8], bytes: &[u8], n: usize)
    ensures { buffer.new ≡ over (take n bytes.now) buffer.old }
{
    let k = n.min(bytes.len()).min(buffer.len());
    slices::copy(&mut buffer[..k], &bytes[..k]);
}

// Of a get with answer 0 the recipe's length, and the recipe in the buffer; else 0, and the buffer keeps.
pub fn deliver(kind: Kind, a: Answer, staged: &[u8; 2112], buffer: &mut [u8]) -> usize
    ensures { (result ≡ count_of kind a staged.now) × (buffer.new ≡ delivered (count_of kind a staged.now) staged.now buffer.old) }
{
    let n = tellings::count_of(kind, a, staged);
    let bytes = &staged[..];
    let start = records::body_start(bytes);
    lay_over(buffer, &bytes[start..], n);
    n
}

// The cut, if the script has come to one.
pub fn lose(g: Geometry, s: Session, block: &mut [u8; 765], array: &mut [u8], junk: &[u8])
    requires { (part_in (held_in block.old array.old) ≡ Some g) × (Canonical block.old) × (s.cut ≡ true → cut_fits g (length array.old) (length junk.now) ≡ true) }
    ensures { (held_in block.new array.new ≡ last_of g s junk.now (held_in block.old array.old)) × (Canonical block.new) }
{
    if !s.cut {
        return;
    }
    exchanges::cut(g, block, array, junk);
}
