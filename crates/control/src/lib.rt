// What frames, busy ends and cuts do to the registers, as definitions; marks and changes. Nothing here sees a buffer's bytes, the array or the compare
// bit.
// Internal to this repository: a caller here meets each `requires`; no entry point is in this crate.
#![tactic(auto)]

ghost use Rattle.std.specs.Prelude.{◌≡◌};
ghost use Rattle.control.specs.Obeyed.{usage_of};
ghost use Rattle.control.specs.Rulings.{marks_of, changed};

use commands::Buffer;
use registers::{Data16, Data64, Operation, Registers, Seals, Usage};

// What matters of a command for whether it is obeyed.
#[derive(Clone, Copy)]
pub enum Class {
    Status,
    Id,
    Wake,
    OfBuffer { buffer: Buffer },
    Other,
}

// What a frame asks of the memory.
#[derive(Clone, Copy)]
pub enum Action {
    // Nothing: every reply byte is FFh.
    Silent,
    ReadPage { page: usize, start: usize },
    // From an array address on.
    ReadArray { start: usize },
    ReadBuffer { buffer: Buffer, start: usize },
    WriteBuffer { buffer: Buffer, start: usize },
    // The data of an FC or 9B are laid over the first bytes of buffer 1.
    LoadProtection { data: Data16 },
    LoadSecurity { data: Data64 },
    ReadProtection,
    ReadLockdown,
    ReadSecurity,
    ReadStatus,
    ReadId,
}

// The registers that a frame leaves, and what it asks of the memory; its data begin after the lead.
#[derive(Clone, Copy)]
pub struct Decision {
    pub registers: Registers,
    pub action: Action,
    pub lead: usize,
}

// What of the registers decides on a frame.
#[derive(Clone, Copy)]
pub struct Marks {
    pub seals: Seals,
    pub used: bool,
    pub deep: bool,
    pub usage: Usage,
}

// What a frame changes of the registers.
#[derive(Clone, Copy)]
pub enum Change {
    Nothing,
    Start { operation: Operation },
    // The protect mark.
    Protect { on: bool },
    // The deep mark.
    Sleep { on: bool },
}

// A decision with the change in place of the registers.
#[derive(Clone, Copy)]
pub struct Ruling {
    pub change: Change,
    pub action: Action,
    pub lead: usize,
}

// ---- marks and changes

pub fn marks_of(r: Registers) -> Marks
    ensures { result ≡ marks_of r }
{
    // Variables, since no proof covers an array that goes from field to field.
    let protection = r.protection;
    let lockdown = r.lockdown;
    Marks {
        seals: Seals {
            protection,
            lockdown,
            protect: r.protect,
            wp: r.wp,
        },
        used: r.used,
        deep: r.deep,
        usage: usage_of(r.operation),
    }
}

// The registers after the change.
pub fn apply(r: Registers, c: Change) -> Registers
    ensures { result ≡ changed c r }
{
    match c {
        Change::Nothing => r,
        Change::Start { operation } => registers::with_operation(r, operation),
        Change::Protect { on } => registers::with_protect(r, on),
        Change::Sleep { on } => registers::with_deep(r, on),
    }
}

pub fn usage_of(o: Operation) -> Usage
    ensures { result ≡ usage_of o }
{
    registers::facts_of(o).usage
}
