// What a driver tells at its end: the answer, weighed by the verdict, and n.
// Internal to this repository: a caller here meets each `requires`; no entry point is in this crate.
#![tactic(auto)]

ghost use Rattle.std.specs.Prelude.{◌≡◌, ◌<◌, length};
ghost use Rattle.slots.specs.Driver.{verdict_answer, weighed, told_by};
ghost use Rattle.slots.specs.Calls.{count_of};
ghost use Rattle.worlds.specs.Turns.{with};

use slots::{Kind, Verdict};
use state::Answer;

#[tactic(auto, unfolding(slots::specs::Driver::verdict_answer))]
fn verdict_answer(v: Verdict) -> Answer
    ensures { result ≡ verdict_answer v }
{
    match v {
        Verdict::Good => Answer::Done,
        Verdict::Blank => Answer::Blank,
        Verdict::Beyond => Answer::End,
        Verdict::Outside => Answer::Term,
        Verdict::Miscompared => Answer::Miscompare,
    }
}

// 0 is weighed by the verdict, any other answer stands.
#[tactic(auto, unfolding(slots::specs::Driver::weighed, state::specs::Answers::number_of))]
fn weigh(a: Answer, v: Verdict) -> Answer
    ensures { result ≡ weighed a v }
{
    match a {
        Answer::Done => verdict_answer(v),
        _ => a,
    }
}

// What a stage tells with a verdict.
#[tactic(auto, unfolding(slots::specs::Driver::told_by))]
pub fn tell(s: Option<Answer>, v: Verdict) -> Option<Answer>
    ensures { result ≡ told_by s v }
{
    s.map(|a| weigh(a, v))
}

// n of a call of this kind with this answer: of a get with 0 the length that the bytes read tell.
#[tactic(auto, unfolding(slots::specs::Calls::count_of, slots::specs::Calls::count_by, state::specs::Answers::number_of))]
pub fn count_of(kind: Kind, a: Answer, staged: &[u8]) -> usize
    ensures { (result ≡ count_of kind a staged.now) × (result < 65536) }
{
    match (kind, a) {
        (Kind::Get, Answer::Done) => records::record_length(staged),
        _ => 0,
    }
}
