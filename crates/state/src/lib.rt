// The chip record, its answers, and the definitions that the entry points' promises cite.
// Open to others are the types and the entry point `number`; the rest is internal to this repository. The chip's entry points are in crate chip.
#![tactic(auto)]

ghost use Rattle.std.specs.Prelude.{◌≡◌, [], ◌+◌, ◌++◌, ◌≤◌};
ghost use Rattle.state.specs.Answers.{number_of};
ghost use Rattle.state.specs.Lent.{buffer_start, memory_in};
ghost use Rattle.state.specs.Memory.{buffer_size, chip_of, with_registers};

use commands::Buffer;
use registers::Registers;

// The answers, by the words and numbers of their table (docs/SPECIFICATION.md, 12); Device is the word chip.
#[derive(Clone, Copy, PartialEq, Eq)]
pub enum Answer {
    Done = 0,
    Part = 1,
    Frame = 2,
    Slot = 3,
    Limit = 4,
    Size = 5,
    Log = 6,
    Script = 7,
    Device = 8,
    Busy = 9,
    Sealed = 10,
    Cut = 11,
    Blank = 12,
    End = 13,
    Dates = 14,
    Term = 15,
    Miscompare = 16,
}

// The chip record: the registers, and of the memory the two buffers and the compare bit.
#[derive(Clone, Copy)]
pub struct Chip {
    pub registers: Registers,
    pub buffer1: [u8; 264],
    pub buffer2: [u8; 264],
    pub compare: bool,
}

// An answer, and the chip afterwards.
#[derive(Clone, Copy)]
pub struct Outcome {
    pub answer: Answer,
    pub chip: Chip,
}

// The answer's number in the table.
#[tactic(auto, unfolding(crate::specs::Answers::number_of))]
pub fn number(a: Answer) -> u8
    ensures { result ≡ number_of a }
{
    a as u8
}

pub fn with_registers(c: Chip, r: Registers) -> Chip
    ensures { result ≡ with_registers c r }
{
    Chip { registers: r, ..c }
}

// Where a buffer begins in the two of them.
pub fn buffer_start(b: Buffer) -> usize
    ensures { (result ≡ buffer_start b) × (result ≤ buffer_size) }
{
    match b {
        Buffer::One => 0,
        Buffer::Two => 264,
    }
}

// Two runs of N bytes as one of M.
fn joined<const N: usize, const M: usize>(first: &[u8; N], second: &[u8; N]) -> [u8; M]
    requires { M ≡ N + N }
    ensures { result ≡ first.now ++ second.now }
{
    let mut bytes = [0u8; M];
    let both = &mut bytes[..];
    slices::copy(&mut both[..N], first);
    slices::copy(&mut both[N..], second);
    bytes
}

// Both buffers, to be lent as one.
pub fn buffers_of(c: Chip) -> [u8; 528]
    ensures { result ≡ c.buffer1 ++ c.buffer2 }
{
    joined(&c.buffer1, &c.buffer2)
}

// User and factory bytes, to be lent as one.
pub fn security_of(r: Registers) -> [u8; 128]
    ensures { result ≡ r.user ++ r.factory }
{
    joined(&r.user, &r.factory)
}

// A chip of its parts.
pub fn chip_of(r: Registers, buffers: [u8; 528], compare: bool) -> Chip
    ensures { result ≡ chip_of r (memory_in [] buffers compare) }
{
    let mut buffer1 = [0u8; 264];
    slices::copy(&mut buffer1, &buffers[..264]);
    let mut buffer2 = [0u8; 264];
    slices::copy(&mut buffer2, &buffers[264..]);
    Chip {
        registers: r,
        buffer1,
        buffer2,
        compare,
    }
}
