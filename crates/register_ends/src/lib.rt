// What a busy end and a cut do to the registers.
// Internal to this repository: a caller here meets each `requires`; no entry point is in this crate.
#![tactic(auto)]

ghost use Rattle.std.specs.Prelude.{◌≡◌, ◌+◌, ◌*◌, ◌≤◌, ◌<◌, true, length, take};
ghost use Rattle.slices.specs.Lists.{over, and_over};
ghost use Rattle.geometry.specs.Parts.{register_room, Sized};
ghost use Rattle.registers.specs.Data.{bytes16};
ghost use Rattle.registers.specs.Fields.{with_protection, with_lockdown, with_user};
ghost use Rattle.registers.specs.Operations.{within};
ghost use Rattle.registers.specs.Protection.{Roomed, locked_bytes};
ghost use Rattle.control.specs.Completion.{completed_by, completed};
ghost use Rattle.control.specs.PowerLoss.{after_buffers, reached, reaching, spoilt, lost_by, lost};

use geometry::Geometry;
use registers::{Data16, Operation, Registers, Update};

// FC: protection AND data.
fn finish_protection(r: Registers, data: Data16) -> Registers
    ensures { result ≡ with_protection r (and_over r.protection (bytes16 «data»)) }
{
    let mut bytes = r.protection;
    let mask = registers::unpacked16(data);
    slices::and_into(&mut bytes, &mask);
    registers::with_protection(r, bytes)
}

fn lock(r: Registers, sector: usize) -> Registers
    requires { sector < register_room + 1 }
    ensures { (g : Geometry) → Roomed g → result ≡ with_lockdown r (locked_bytes g r.lockdown sector) }
{
    registers::with_lockdown(r, registers::locked_bytes(r.lockdown, sector))
}

// What the operation does to the registers as it ends.
fn finish(g: Geometry, r: Registers, o: Operation) -> Registers
    requires { (Sized g (g.pages * g.size)) × (within g o ≡ true) }
    ensures { result ≡ completed_by g o r }
{
    match registers::update_of(o) {
        Update::Keep => r,
        Update::FillProtection => registers::with_protection(r, [255u8; 16]),
        Update::MaskProtection { data } => finish_protection(r, data),
        Update::Lock { sector } => lock(r, sector),
        Update::WriteUser { data } => registers::with_user(r, registers::unpacked64(data)),
    }
}

// The registers after a busy end.
#[tactic(auto, unfolding(control::specs::Completion::completed))]
pub fn complete(g: Geometry, r: Registers) -> Registers
    requires { (Sized g (g.pages * g.size)) × (within g r.operation ≡ true) }
    ensures { result ≡ completed g r }
{
    registers::with_operation(finish(g, r, r.operation), Operation::Idle)
}

// A cut during CF or FC: protection becomes junk.
fn lose_protection(g: Geometry, r: Registers, junk: &[u8]) -> Registers
    requires { (Roomed g) × (2 * g.size + 64 ≤ length junk.now) }
    ensures { result ≡ with_protection r (over (take g.register (after_buffers g junk.now)) r.protection) }
{
    let mut bytes = r.protection;
    let a = 2 * g.size;
    slices::copy(&mut bytes, &junk[a..a + g.register]);
    registers::with_protection(r, bytes)
}

// A cut during 9B: the user bytes become junk.
fn lose_security(g: Geometry, r: Registers, junk: &[u8]) -> Registers
    requires { 2 * g.size + 64 ≤ length junk.now }
    ensures { result ≡ with_user r (over (take 64 (after_buffers g junk.now)) r.user) }
{
    let mut bytes = r.user;
    let a = 2 * g.size;
    slices::copy(&mut bytes, &junk[a..a + 64]);
    registers::with_user(r, bytes)
}

// A cut during a lock: the sector locks if the first junk byte after the buffers' is at least 80h.
#[tactic(auto, using(control::proofs::Steps::lock_cut, control::proofs::Steps::lock_kept))]
fn lose_lock(g: Geometry, r: Registers, junk: &[u8], sector: usize) -> Registers
    requires { (Roomed g) × (2 * g.size + 64 ≤ length junk.now) × (sector < register_room + 1) }
    ensures { result ≡ spoilt g (Update.Lock sector) (reached g (Update.Lock sector) (after_buffers g junk.now)) r }
{
    if 128 <= junk[2 * g.size] {
        return lock(r, sector);
    }
    r
}

// What a cut during the operation does to the registers.
fn lose_operation(g: Geometry, r: Registers, o: Operation, junk: &[u8]) -> Registers
    requires { (Sized g (g.pages * g.size)) × (within g o ≡ true) × (2 * g.size + 64 ≤ length junk.now) }
    ensures { result ≡ lost_by g o (reaching g o junk.now) r }
{
    match registers::update_of(o) {
        Update::Keep => r,
        Update::FillProtection | Update::MaskProtection { .. } => lose_protection(g, r, junk),
        Update::Lock { sector } => lose_lock(g, r, junk, sector),
        Update::WriteUser { .. } => lose_security(g, r, junk),
    }
}

// The registers after a cut.
#[tactic(auto, unfolding(control::specs::PowerLoss::lost))]
pub fn lose(g: Geometry, r: Registers, junk: &[u8]) -> Registers
    requires { (Sized g (g.pages * g.size)) × (within g r.operation ≡ true) × (2 * g.size + 64 ≤ length junk.now) }
    ensures { result ≡ lost g r (reaching g r.operation junk.now) }
{
    registers::restart(lose_operation(g, r, r.operation, junk))
}
