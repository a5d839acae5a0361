// The code of the driver's control: which step of a call's plan stands at a place, by arithmetic on the place.
// Internal to this repository: a caller here meets each `requires`; no entry point is in this crate.
#![tactic(auto)]

ghost use Rattle.std.specs.Prelude.{◌≡◌, Bool, [], ◌∷◌, ℕ, suc, ◌/◌, ◌≤◌, ◌<◌, ◌*◌, length};
ghost use Rattle.geometry.specs.declared.Geometry.{Geometry};
ghost use Rattle.slots.specs.declared.Step.TheVariants.{Wait, Send};
ghost use Rattle.slots.specs.Plans.{opening, is_asking, put_page, page_steps, plan_by, step_at, is_end, stated};
ghost use Rattle.steps.specs.Places.{per_page, page_count, page_by};

use slots::{Command, Kind, Step};

// A command that names a page, and its wait.
#[tactic(auto, using(crate::proofs::ByIndex::at_two), unfolding(slots::specs::Plans::step_at, crate::specs::Places::page_by))]
fn sent_step(command: Command, page: usize, checked: bool, j: usize) -> Step
    ensures { (result ≡ step_at (Send command page ∷ Wait checked ∷ []) j) × (page_by result ≤ page) }
{
    match j {
        0 => Step::Send { command, page },
        1 => Step::Wait { checked },
        _ => Step::End,
    }
}

// A page loaded, programmed and compared.
#[tactic(auto, using(crate::proofs::ByIndex::at_programmed, crate::proofs::ByIndex::at_compared), unfolding(slots::specs::Plans::step_at, crate::specs::Places::page_by))]
fn put_step(page: usize, j: usize) -> Step
    ensures { (result ≡ step_at (put_page page) j) × (page_by result ≤ page) }
{
    match j {
        0 => Step::Load { page },
        1 | 2 => sent_step(Command::Program, page, false, j - 1),
        _ => sent_step(Command::Compare, page, true, j - 3),
    }
}

// Step j of what a call sends for a page.
#[tactic(auto, using(crate::proofs::ByIndex::at_later, crate::proofs::ByIndex::at_one), unfolding(slots::specs::Plans::page_steps, slots::specs::Plans::step_at, crate::specs::Places::page_by))]
fn page_step(kind: Kind, page: usize, j: usize) -> Step
    ensures { (result ≡ step_at (page_steps kind page) j) × (page_by result ≤ page) }
{
    match (kind, j) {
        (Kind::Put, _) => put_step(page, j),
        (Kind::Patch, 0) => Step::Read { page },
        (Kind::Patch, _) => put_step(page, j - 1),
        (Kind::Get, 0) => Step::Read { page },
        (Kind::Get, _) => Step::End,
        (Kind::Wipe, _) => sent_step(Command::Erase, page, false, j),
    }
}

#[tactic(auto, unfolding(crate::specs::Places::per_page))]
fn per_page(kind: Kind) -> usize
    ensures { (result ≡ per_page kind) × (0 < result) × (result ≤ 6) }
{
    match kind {
        Kind::Put => 5,
        Kind::Patch => 6,
        Kind::Get => 1,
        Kind::Wipe => 2,
    }
}

#[tactic(auto, unfolding(crate::specs::Places::page_count))]
fn page_count(kind: Kind) -> usize
    ensures { (result ≡ page_count kind) × (result ≤ 8) }
{
    match kind {
        Kind::Put | Kind::Patch | Kind::Get => 8,
        Kind::Wipe => 1,
    }
}

// Which page the j-th step after the opening belongs to. The divisors stand in the code.
#[tactic(auto, unfolding(crate::specs::Places::per_page))]
fn page_of(kind: Kind, j: usize) -> usize
    ensures { result ≡ j / per_page kind }
{
    match kind {
        Kind::Put => j / 5,
        Kind::Patch => j / 6,
        Kind::Get => j,
        Kind::Wipe => j / 2,
    }
}

// How many steps come before the pages: a wait; and 32 and 35, but for a get.
#[tactic(auto, unfolding(slots::specs::Plans::is_asking))]
fn opening_length(kind: Kind) -> usize
    ensures { (result ≡ length (opening (is_asking kind))) × (1 ≤ result) × (result ≤ 3) }
{
    match kind {
        Kind::Put | Kind::Patch | Kind::Wipe => 3,
        Kind::Get => 1,
    }
}

// Step i of the opening.
#[tactic(auto, using(crate::proofs::ByIndex::opens_third), unfolding(slots::specs::Plans::step_at, crate::specs::Places::page_by))]
fn opening_step(i: usize) -> Step
    ensures { ((b : Bool) → i < length (opening b) → result ≡ step_at (opening b) i) × (page_by result ≡ 0) }
{
    match i {
        0 => Step::Wait { checked: false },
        1 => Step::Protection,
        _ => Step::Lockdown,
    }
}

// The step at place i of a call's plan; the page that it names, if it names one, is below 4,096.
pub fn step_at(kind: Kind, slot: usize, i: usize) -> Step
    requires { 8 * slot < 4096 }
    ensures { ((g : Geometry) → result ≡ step_at (plan_by kind g slot) i) × (page_by result < 4096) }
{
    let n = opening_length(kind);
    if i < n {
        return opening_step(i);
    }
    let j = i - n;
    let q = page_of(kind, j);
    if page_count(kind) <= q {
        return Step::End;
    }
    page_step(kind, 8 * slot + q, j - q * per_page(kind))
}

// Whether the plan ends after place i.
#[tactic(auto, using(crate::proofs::Last::last_from), unfolding(slots::specs::Plans::frames_of))]
pub fn is_last(kind: Kind, i: usize) -> bool
    ensures { (g : Geometry) (slot : ℕ) → result ≡ is_end (step_at (plan_by kind g slot) (suc i)) }
{
    match kind {
        Kind::Put => 42 <= i,
        Kind::Patch => 50 <= i,
        Kind::Get => 8 <= i,
        Kind::Wipe => 4 <= i,
    }
}

#[tactic(auto, unfolding(slots::specs::Plans::is_end))]
pub fn is_end(x: Step) -> bool
    ensures { result ≡ is_end x }
{
    matches!(x, Step::End)
}

// The most frames that a call with this poll limit sends.
#[tactic(auto, unfolding(slots::specs::Plans::stated))]
pub fn bound_of(kind: Kind, limit: usize) -> usize
    requires { limit ≤ 1000 }
    ensures { (result ≡ stated kind limit) × (result ≤ 17034) }
{
    match kind {
        Kind::Put => 17 * limit + 26,
        Kind::Patch => 17 * limit + 34,
        Kind::Get => limit + 8,
        Kind::Wipe => 2 * limit + 3,
    }
}
