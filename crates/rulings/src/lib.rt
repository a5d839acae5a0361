// How a frame is ruled on: its row, whether it is obeyed, and what follows.
// Internal to this repository: a caller here meets each `requires`; no entry point is in this crate.
#![tactic(auto)]

ghost use Rattle.std.specs.Prelude.{◌≡◌, ◌*◌, ◌≤◌, ◌<◌, eqb, true, length};
ghost use Rattle.commands.specs.Room.{room, takes};
ghost use Rattle.geometry.specs.Parts.{Sized, address_at, page_at, byte_at};
ghost use Rattle.control.specs.Obeyed.{obeyed};
ghost use Rattle.control.specs.Control.{row_of, control};
ghost use Rattle.control.specs.Rulings.{Applies};

use commands::Effect;
use control::{Action, Change, Marks, Ruling};
use geometry::Geometry;
use registers::Operation;

// Whether the row goes by a page or a byte that the frame names behind its opcode (`rows::lock_sector` finds its sector itself).
#[tactic(auto, unfolding(commands::specs::Room::room))]
fn is_addressed(e: Effect) -> bool
    ensures { result ≡ eqb (room e) 4 }
{
    matches!(
        e,
        Effect::ReadPage
            | Effect::ReadArray
            | Effect::ReadBuffer(_)
            | Effect::WriteBuffer(_)
            | Effect::Program(_)
            | Effect::ProgramOver(_)
            | Effect::ProgramThrough(_)
            | Effect::ErasePage
            | Effect::EraseBlock
            | Effect::EraseSector
            | Effect::Transfer(_)
            | Effect::Compare(_)
            | Effect::Rewrite(_)
    )
}

// The page and the byte that the row goes by; 0 and 0 where it goes by none: such a frame does not pay for them.
fn found(g: Geometry, frame: &[u8], e: Effect) -> (usize, usize)
    requires { Sized g (g.pages * g.size) }
    ensures within { (result.0 < g.pages) × (result.1 < g.size) }
    ensures held { eqb (room e) 4 ≡ true → 4 ≤ length frame.now → (result.0 ≡ page_at g (address_at frame.now 1)) × (result.1 ≡ byte_at g (address_at frame.now 1)) }
{
    if is_addressed(e) {
        return rows::named(g, frame);
    }
    (0, 0)
}

// A row of the command table, for a frame that is obeyed.
#[tactic(auto, using(control::proofs::Steps::has_room, control::proofs::Steps::has_data), unfolding(control::specs::Control::row_decided, control::specs::Rulings::applied, control::specs::Rulings::changed, commands::specs::Room::room, commands::specs::Room::takes))]
fn row(g: Geometry, m: Marks, frame: &[u8], lead: usize, e: Effect) -> Ruling
    requires { (Sized g (g.pages * g.size)) × (room e ≤ length frame.now) × (takes e ≡ true → 4 ≤ length frame.now) }
    ensures { Applies m result (λ r. row_of g r frame.now lead e) }
{
    let (page, start) = found(g, frame, e);
    match e {
        Effect::ReadPage => rows::tell(Action::ReadPage { page, start }, lead),
        Effect::ReadArray => rows::read_array(g, page, start, lead),
        Effect::ReadBuffer(buffer) => rows::tell(Action::ReadBuffer { buffer, start }, lead),
        Effect::WriteBuffer(buffer) => rows::tell(Action::WriteBuffer { buffer, start }, lead),
        Effect::Program(buffer) => rows::start_on(g, m, page, Operation::Program { buffer, page }),
        Effect::ProgramOver(buffer) => rows::start_on(
            g,
            m,
            page,
            Operation::ProgramOver { buffer, page },
        ),
        Effect::ProgramThrough(buffer) => rows::program_through(g, m, page, start, lead, buffer),
        Effect::ErasePage => rows::start_on(g, m, page, Operation::ErasePage { page }),
        Effect::EraseBlock => rows::erase_block(g, m, page),
        Effect::EraseSector => rows::erase_sector(g, m, page),
        Effect::EraseChip => rows::erase_chip(g, m),
        Effect::Transfer(buffer) => rows::start(Operation::Transfer { buffer, page }),
        Effect::Compare(buffer) => rows::start(Operation::Compare { buffer, page }),
        Effect::Rewrite(buffer) => rows::start_on(g, m, page, Operation::Rewrite { buffer, page }),
        Effect::ProtectOn => rows::rule(Change::Protect { on: true }, Action::Silent, 0),
        Effect::ProtectOff => rows::protect_off(m),
        Effect::EraseProtection => rows::erase_protection(m),
        Effect::ProgramProtection => rows::program_protection(m, frame),
        Effect::LockSector => rows::lock_sector(g, m, frame),
        Effect::ProgramSecurity => rows::program_security(m, frame),
        Effect::ReadProtection => rows::tell(Action::ReadProtection, lead),
        Effect::ReadLockdown => rows::tell(Action::ReadLockdown, lead),
        Effect::ReadSecurity => rows::tell(Action::ReadSecurity, lead),
        Effect::ReadStatus => rows::tell(Action::ReadStatus, lead),
        Effect::ReadId => rows::tell(Action::ReadId, lead),
        Effect::PowerDown => rows::rule(Change::Sleep { on: true }, Action::Silent, 0),
        Effect::Resume => rows::rule(Change::Sleep { on: false }, Action::Silent, 0),
        Effect::Unlisted => rows::ignore(),
    }
}

// What a frame does to the registers, and what it asks of the memory.
pub fn control_frame(g: Geometry, m: Marks, frame: &[u8]) -> Ruling
    requires { Sized g (g.pages * g.size) }
    ensures { Applies m result (λ r. control g r frame.now) }
{
    let d = decoding::decode(frame);
    if obedience::is_obeyed(m, d.effect) {
        return row(g, m, frame, d.lead, d.effect);
    }
    rows::ignore()
}
