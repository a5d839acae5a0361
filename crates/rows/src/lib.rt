// What each row of the command table does to the registers, and what it asks of the memory.
// Internal to this repository: a caller here meets each `requires`; no entry point is in this crate.
#![tactic(auto)]

ghost use Rattle.std.specs.Prelude.{◌≡◌, ◌+◌, ◌*◌, ◌/◌, ◌≤◌, ◌<◌, length};
ghost use Rattle.geometry.specs.Parts.{Sized, address_at, page_at, byte_at, page_start};
ghost use Rattle.geometry.specs.Sectors.{sector_of};
ghost use Rattle.registers.specs.Protection.{Roomed, unsealed_set};
ghost use Rattle.control.specs.Control.{started, started_on, programmed_through, protect_off, protection_erased, protection_programmed, sector_locked, security_programmed};
ghost use Rattle.control.specs.Rulings.{ruled, Applies};

use commands::Buffer;
use control::{Action, Change, Marks, Ruling};
use geometry::Geometry;
use registers::Operation;

pub fn rule(c: Change, a: Action, lead: usize) -> Ruling
    ensures { result ≡ ruled c a lead }
{
    Ruling {
        change: c,
        action: a,
        lead,
    }
}

// The registers stay as they are.
pub fn tell(a: Action, lead: usize) -> Ruling
    ensures { result ≡ ruled Change.Nothing a lead }
{
    rule(Change::Nothing, a, lead)
}

pub fn ignore() -> Ruling
    ensures { result ≡ ruled Change.Nothing Action.Silent 0 }
{
    rule(Change::Nothing, Action::Silent, 0)
}

// The operation starts, whatever is sealed.
pub fn start(o: Operation) -> Ruling
    ensures { result ≡ ruled (Change.Start o) Action.Silent 0 }
{
    rule(Change::Start { operation: o }, Action::Silent, 0)
}

// A program or erase: ignored where it names a sealed sector.
#[tactic(auto, using(geometry::proofs::Sectors::sector_served, control::proofs::Bearing::seals_of_lem), unfolding(control::specs::Control::started_on, control::specs::Rulings::applied, control::specs::Rulings::changed))]
pub fn start_on(g: Geometry, m: Marks, page: usize, o: Operation) -> Ruling
    requires { (Sized g (g.pages * g.size)) × (page < g.pages) }
    ensures { Applies m result (λ r. started_on g r page o) }
{
    if registers::is_sealed(m.seals, geometry::sector_of(g, page)) {
        return ignore();
    }
    start(o)
}

// The page and the byte of the frame's first address; 0 and 0 where the frame is too short to hold one.
pub fn named(g: Geometry, frame: &[u8]) -> (usize, usize)
    requires { Sized g (g.pages * g.size) }
    ensures within { (result.0 < g.pages) × (result.1 < g.size) }
    ensures held { 4 ≤ length frame.now → (result.0 ≡ page_at g (address_at frame.now 1)) × (result.1 ≡ byte_at g (address_at frame.now 1)) }
{
    if frame.len() < 4 {
        return (0, 0);
    }
    let address = geometry::address_at(frame, 1);
    (geometry::page_at(g, address), geometry::byte_at(g, address))
}

// 03, 0B.
#[tactic(auto, using(geometry::proofs::Pages::sized_small))]
pub fn read_array(g: Geometry, page: usize, start: usize, lead: usize) -> Ruling
    requires { (Sized g (g.pages * g.size)) × (page < g.pages) × (start < g.size) }
    ensures { result ≡ ruled Change.Nothing (Action.ReadArray (page_start g page + start)) lead }
{
    let start = geometry::page_start(g, page) + start;
    tell(Action::ReadArray { start }, lead)
}

// 82/85: sealed, no buffer is written either.
#[tactic(auto, using(geometry::proofs::Sectors::sector_served, control::proofs::Bearing::seals_of_lem), unfolding(control::specs::Control::programmed_through, control::specs::Rulings::applied, control::specs::Rulings::changed))]
pub fn program_through(
    g: Geometry,
    m: Marks,
    page: usize,
    start: usize,
    lead: usize,
    buffer: Buffer,
) -> Ruling
    requires { (Sized g (g.pages * g.size)) × (page < g.pages) }
    ensures { Applies m result (λ r. programmed_through g r buffer page start lead) }
{
    if registers::is_sealed(m.seals, geometry::sector_of(g, page)) {
        return ignore();
    }
    rule(
        Change::Start {
            operation: Operation::Program { buffer, page },
        },
        Action::WriteBuffer { buffer, start },
        lead,
    )
}

// 50.
pub fn erase_block(g: Geometry, m: Marks, page: usize) -> Ruling
    requires { (Sized g (g.pages * g.size)) × (page < g.pages) }
    ensures { Applies m result (λ r. started_on g r page (Operation.EraseBlock (page / 8))) }
{
    start_on(g, m, page, Operation::EraseBlock { block: page / 8 })
}

// 7C.
pub fn erase_sector(g: Geometry, m: Marks, page: usize) -> Ruling
    requires { (Sized g (g.pages * g.size)) × (page < g.pages) }
    ensures { Applies m result (λ r. started_on g r page (Operation.EraseSector (sector_of g page))) }
{
    let sector = geometry::sector_of(g, page);
    start_on(g, m, page, Operation::EraseSector { sector })
}

// C7 94 80 9A.
#[tactic(auto, using(control::proofs::Bearing::seals_of_lem), unfolding(control::specs::Rulings::applied, control::specs::Rulings::changed))]
pub fn erase_chip(g: Geometry, m: Marks) -> Ruling
    requires { Sized g (g.pages * g.size) }
    ensures { Applies m result (λ r. started r (Operation.EraseChip (unsealed_set g r))) }
{
    start(Operation::EraseChip {
        sectors: registers::unsealed_set(g, m.seals),
    })
}

// 3D 2A 7F 9A.
#[tactic(auto, unfolding(control::specs::Control::protect_off, control::specs::Rulings::applied, control::specs::Rulings::changed))]
pub fn protect_off(m: Marks) -> Ruling
    ensures { Applies m result (λ r. protect_off r) }
{
    if m.seals.wp {
        return rule(Change::Protect { on: false }, Action::Silent, 0);
    }
    ignore()
}

// 3D 2A 7F CF.
#[tactic(auto, unfolding(control::specs::Control::protection_erased, control::specs::Rulings::applied, control::specs::Rulings::changed))]
pub fn erase_protection(m: Marks) -> Ruling
    ensures { Applies m result (λ r. protection_erased r) }
{
    if m.seals.wp {
        return start(Operation::EraseProtection);
    }
    ignore()
}

// 3D 2A 7F FC.
#[tactic(auto, unfolding(control::specs::Control::protection_programmed, control::specs::Control::protection_data, control::specs::Rulings::applied, control::specs::Rulings::changed))]
pub fn program_protection(m: Marks, frame: &[u8]) -> Ruling
    requires { 4 ≤ length frame.now }
    ensures { (g : Geometry) → Roomed g → Applies m result (λ r. protection_programmed g r frame.now) }
{
    if m.seals.wp {
        let data = registers::protection_data(frame);
        let o = Operation::ProgramProtection { data };
        return rule(
            Change::Start { operation: o },
            Action::LoadProtection { data },
            0,
        );
    }
    ignore()
}

// 3D 2A 7F 30: the page is in the last three bytes of the lead.
#[tactic(auto, unfolding(control::specs::Control::sector_locked, control::specs::Rulings::applied, control::specs::Rulings::changed))]
pub fn lock_sector(g: Geometry, m: Marks, frame: &[u8]) -> Ruling
    requires { (Sized g (g.pages * g.size)) × (7 ≤ length frame.now) }
    ensures { Applies m result (λ r. sector_locked g r frame.now) }
{
    let page = geometry::page_at(g, geometry::address_at(frame, 4));
    let sector = geometry::sector_of(g, page);
    start(Operation::LockSector { sector })
}

// 9B 00 00 00.
#[tactic(auto, unfolding(control::specs::Control::security_programmed, control::specs::Control::security_data, control::specs::Rulings::applied, control::specs::Rulings::changed))]
pub fn program_security(m: Marks, frame: &[u8]) -> Ruling
    requires { 4 ≤ length frame.now }
    ensures { Applies m result (λ r. security_programmed r frame.now) }
{
    if m.used {
        return ignore();
    }
    let data = registers::security_data(frame);
    let o = Operation::ProgramSecurity { data };
    rule(
        Change::Start { operation: o },
        Action::LoadSecurity { data },
        0,
    )
}
