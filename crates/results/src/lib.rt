// What a driver's state tells, and its end: whether it has ended, the answer, n, and an end from outside.
// Every function named to others takes any state. A state that no call comes to counts as ended.
#![tactic(auto)]

ghost use Rattle.std.specs.Prelude.{◌≡◌, ◌≤◌, ◌-◌, Some};
ghost use Rattle.geometry.specs.declared.Geometry.{Geometry};
ghost use Rattle.geometry.specs.Parts.{part_of, slot_room};
ghost use Rattle.slots.specs.Driver.{is_ended};
ghost use Rattle.worlds.specs.Turns.{with};
ghost use Rattle.worlds.specs.Step.{stage_in, staged_at, halted, told_in, count_by, count_in};

use geometry::Geometry;
use slots::{Course, Driver};
use state::Answer;

// The state with another stage.
pub fn with_stage(d: Driver, s: Option<Answer>) -> Driver
    ensures { result ≡ with d d.verdict (staged_at s d.course) }
{
    let course = Course {
        stage: s,
        ..d.course
    };
    Driver { course, ..d }
}

// The state ended with an answer, where something outside the driver ends the call.
pub fn halt(d: Driver, a: Answer) -> Driver
    ensures { result ≡ halted d a }
{
    with_stage(d, Some(a))
}

#[tactic(auto, unfolding(worlds::specs::Step::stage_in))]
pub fn is_ended(d: Driver) -> bool
    ensures { result ≡ is_ended (stage_in d) }
{
    let s = states::stage(geometry::part_of(d.array), d);
    courses::has_ended(s)
}

// The call's answer, if it has ended.
#[tactic(auto, unfolding(worlds::specs::Step::told_in, worlds::specs::Step::stage_in))]
pub fn answer(d: Driver) -> Option<Answer>
    ensures { result ≡ told_in d }
{
    let s = states::stage(geometry::part_of(d.array), d);
    tellings::tell(s, d.verdict)
}

fn count_on(g: Geometry, d: Driver, staged: &[u8]) -> usize
    requires { part_of d.array ≡ Some g }
    ensures { (result ≡ count_by (Some g) d staged.now) × (result ≤ slot_room - 3) }
{
    if !records::is_record(g, staged) {
        return 0;
    }
    match answer(d) {
        None => 0,
        Some(a) => tellings::count_of(d.kind, a, staged),
    }
}

// Of a get that has ended with 0 the recipe's length; the recipe stands in the bytes read behind the head. Else 0.
#[tactic(auto, unfolding(worlds::specs::Step::count_in, worlds::specs::Step::count_by))]
pub fn count(d: Driver, staged: &[u8; 2112]) -> usize
    ensures { (result ≡ count_in d staged.now) × (result ≤ slot_room - 3) }
{
    let Some(g) = geometry::part_of(d.array) else {
        return 0;
    };
    count_on(g, d, staged)
}
