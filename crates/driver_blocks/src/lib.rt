// The state of the slot driver as a block of 72 bytes, for the C interface: the definitions, and reading it. Crate driver_storing writes it.
// Internal to this repository: the entry points are in crate slipknoll.
#![tactic(auto)]

ghost use Rattle.std.specs.Prelude.{◌≡◌, ◌+◌, ◌≤◌};
ghost use Rattle.slices.specs.Words.{word_at};
ghost use Rattle.driver_blocks.specs.Block.{kind_of, verdict_of, answer_at, is_kind, is_ours, stage_of, period_at, decode_course, decode_aim, decode_driver};

use slots::{Aim, Course, Driver, Kind, Period, Verdict};
use state::Answer;

// The three below are no `From<u8>`: their enums are of other crates, and the numbers are the layout of the block that C holds.
#[tactic(auto, unfolding(crate::specs::Block::kind_of))]
fn kind(n: u8) -> Kind
    ensures { result ≡ kind_of n }
{
    match n {
        0x0F => Kind::Put,
        0x33 => Kind::Patch,
        0xF0 => Kind::Wipe,
        _ => Kind::Get,
    }
}

#[tactic(auto, unfolding(crate::specs::Block::verdict_of))]
fn verdict(n: u8) -> Verdict
    ensures { result ≡ verdict_of n }
{
    match n {
        0 => Verdict::Good,
        1 => Verdict::Blank,
        2 => Verdict::Beyond,
        3 => Verdict::Outside,
        _ => Verdict::Miscompared,
    }
}

// The answer of a number of the table.
#[tactic(auto, unfolding(crate::specs::Block::answer_at))]
fn answer_at(n: u8) -> Answer
    ensures { result ≡ answer_at n }
{
    match n {
        0 => Answer::Done,
        1 => Answer::Part,
        2 => Answer::Frame,
        3 => Answer::Slot,
        4 => Answer::Limit,
        5 => Answer::Size,
        6 => Answer::Log,
        7 => Answer::Script,
        8 => Answer::Device,
        9 => Answer::Busy,
        10 => Answer::Sealed,
        11 => Answer::Cut,
        12 => Answer::Blank,
        13 => Answer::End,
        14 => Answer::Dates,
        15 => Answer::Term,
        _ => Answer::Miscompare,
    }
}

#[tactic(auto, unfolding(crate::specs::Block::is_kind))]
fn is_kind(n: u8) -> bool
    ensures { result ≡ is_kind n }
{
    matches!(n, 0x0F | 0x33 | 0x55 | 0xF0)
}

// Whether the first four bytes are such as a state is written with.
#[tactic(auto, unfolding(crate::specs::Block::is_ours))]
fn is_ours(block: &[u8; 72]) -> bool
    ensures { result ≡ is_ours block.now }
{
    is_kind(block[0]) && block[1] <= 4 && block[2] <= 1 && block[3] <= 16
}

#[tactic(auto, unfolding(crate::specs::Block::stage_of))]
fn stage(ours: bool, n: u8, a: u8) -> Option<Answer>
    ensures { result ≡ stage_of ours n a }
{
    match (ours, n) {
        (false, _) => Some(Answer::Part),
        (true, 0) => None,
        (true, _) => Some(answer_at(a)),
    }
}

// No term under 0, whatever the two numbers.
#[tactic(auto, unfolding(crate::specs::Block::period_at))]
fn period(n: u8, first: usize, last: usize) -> Period
    ensures { result ≡ period_at n first last }
{
    match n {
        0 => Period::Always,
        _ => Period::Days { first, last },
    }
}

// The number of eight bytes from index `at` on.
fn number_at(block: &[u8; 72], at: usize) -> usize
    requires { at + 8 ≤ 72 }
    ensures { result ≡ word_at block.now at }
{
    slices::word_at(block, at) as usize
}

#[tactic(auto, unfolding(crate::specs::Block::decode_course))]
fn decode_course(block: &[u8; 72]) -> Course
    ensures { result ≡ decode_course block.now }
{
    Course {
        place: usize::from(block[4]),
        left: number_at(block, 40),
        stage: stage(is_ours(block), block[2], block[3]),
        listed: block[5] != 0,
        guarded: block[6] != 0,
    }
}

#[tactic(auto, unfolding(crate::specs::Block::decode_aim))]
fn decode_aim(block: &[u8; 72]) -> Aim
    ensures { result ≡ decode_aim block.now }
{
    Aim {
        place: number_at(block, 32),
        period: period(block[7], number_at(block, 48), number_at(block, 56)),
        today: number_at(block, 64),
    }
}

// The state that a block of any content holds.
#[tactic(auto, unfolding(crate::specs::Block::decode_driver))]
pub fn decode(block: &[u8; 72]) -> Driver
    ensures { result ≡ decode_driver block.now }
{
    Driver {
        array: number_at(block, 8),
        slot: number_at(block, 16),
        limit: number_at(block, 24),
        aim: decode_aim(block),
        kind: kind(block[0]),
        verdict: verdict(block[1]),
        course: decode_course(block),
    }
}
