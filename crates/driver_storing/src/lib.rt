// Writing the slot driver's state into its block of 72 bytes, and what the C interface tells of it.
// Internal to this repository: the entry points are in crate slipknoll.
#![tactic(auto)]

ghost use Rattle.std.specs.Prelude.{◌≡◌, ◌+◌, ◌≤◌};
ghost use Rattle.slices.specs.Lists.{over, splice};
ghost use Rattle.slices.specs.Words.{word_bytes};
ghost use Rattle.driver_blocks.specs.Block.{kind_number, verdict_number, stage_number, end_number, dated_number, first_of, last_of, head_bytes, encode_driver, told_number};

use slots::{Driver, Kind, Period, Verdict};
use state::Answer;

// The numbers below are the layout of the block that C holds; the enums are of other crates, so these are no `From`.
#[tactic(auto, unfolding(driver_blocks::specs::Block::kind_number))]
fn kind_number(k: Kind) -> u8
    ensures { result ≡ kind_number k }
{
    match k {
        Kind::Put => 0x0F,
        Kind::Patch => 0x33,
        Kind::Get => 0x55,
        Kind::Wipe => 0xF0,
    }
}

#[tactic(auto, unfolding(driver_blocks::specs::Block::verdict_number))]
fn verdict_number(v: Verdict) -> u8
    ensures { result ≡ verdict_number v }
{
    match v {
        Verdict::Good => 0,
        Verdict::Blank => 1,
        Verdict::Beyond => 2,
        Verdict::Outside => 3,
        Verdict::Miscompared => 4,
    }
}

// 0 while the call is going, 1 once it has ended.
#[tactic(auto, unfolding(driver_blocks::specs::Block::stage_number))]
fn stage_number(s: Option<Answer>) -> u8
    ensures { result ≡ stage_number s }
{
    u8::from(s.is_some())
}

// The answer's number at the end, 0 before it.
#[tactic(auto, unfolding(driver_blocks::specs::Block::end_number))]
fn end_number(s: Option<Answer>) -> u8
    ensures { result ≡ end_number s }
{
    s.map_or(0, state::number)
}

// 1 with a term, 0 without.
#[tactic(auto, unfolding(driver_blocks::specs::Block::dated_number))]
fn dated_number(p: Period) -> u8
    ensures { result ≡ dated_number p }
{
    u8::from(matches!(p, Period::Days { .. }))
}

// The numbers of the first and the last day; 0 without a term.
#[tactic(auto, unfolding(driver_blocks::specs::Block::first_of, driver_blocks::specs::Block::last_of))]
fn days_of(p: Period) -> (usize, usize)
    ensures first { result.0 ≡ first_of p }
    ensures last { result.1 ≡ last_of p }
{
    match p {
        Period::Always => (0, 0),
        Period::Days { first, last } => (first, last),
    }
}

#[tactic(auto, unfolding(driver_blocks::specs::Block::head_bytes))]
fn head_bytes(d: Driver) -> [u8; 8]
    ensures { result ≡ head_bytes d.kind d.verdict d.course d.aim.period }
{
    [
        kind_number(d.kind),
        verdict_number(d.verdict),
        stage_number(d.course.stage),
        end_number(d.course.stage),
        (d.course.place % 256) as u8,
        u8::from(d.course.listed),
        u8::from(d.course.guarded),
        dated_number(d.aim.period),
    ]
}

// The first eight bytes stored.
fn put_head(block: &mut [u8; 72], d: Driver)
    ensures { block.new ≡ over (head_bytes d.kind d.verdict d.course d.aim.period) block.old }
{
    block[..8].copy_from_slice(&head_bytes(d));
}

// The eight bytes of a number stored from index `at` on.
fn put_number(block: &mut [u8; 72], at: usize, n: usize)
    requires { at + 8 ≤ 72 }
    ensures { block.new ≡ splice at (word_bytes n) block.old }
{
    slices::put_word(block, at, n as u64);
}

// The state stored into the block.
pub fn encode(block: &mut [u8; 72], d: Driver)
    ensures { block.new ≡ encode_driver d }
{
    let (first, last) = days_of(d.aim.period);
    put_head(block, d);
    put_number(block, 8, d.array);
    put_number(block, 16, d.slot);
    put_number(block, 24, d.limit);
    put_number(block, 32, d.aim.place);
    put_number(block, 40, d.course.left);
    put_number(block, 48, first);
    put_number(block, 56, last);
    put_number(block, 64, d.aim.today);
}

// What a caller of the C interface is told: the answer's number, or 255 while the call is running.
#[tactic(auto, unfolding(driver_blocks::specs::Block::told_number))]
pub fn told_number(t: Option<Answer>) -> u8
    ensures { result ≡ told_number t }
{
    t.map_or(255, state::number)
}
