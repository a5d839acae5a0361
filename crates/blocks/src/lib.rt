// The record block: 765 bytes that hold a chip record.
#![tactic(auto)]

ghost use Rattle.std.specs.Prelude.{◌≡◌, ◌+◌, ◌≤◌};
ghost use Rattle.control.specs.Rulings.{marks_of};
ghost use Rattle.blocks.specs.Block.{field, number_in, sectors_in, buffered_of, plain_of, decode_operation, decode_registers, decode_chip};
ghost use Rattle.blocks.specs.Holds.{Holds};

use commands::Buffer;
use control::Marks;
use registers::{Operation, Registers, Seals};
use state::Chip;

// An operation beyond every part.
const BEYOND: Operation = Operation::ErasePage { page: 65535 };

// Tag, buffer, number and sector set of the operation under way, as the block holds them.
#[derive(Clone, Copy)]
pub struct Heading {
    pub tag: u8,
    pub buffer: u8,
    pub number: usize,
    pub sectors: u32,
}

// ---- reading a block

// The `N` bytes from index `at` on.
fn part<const N: usize>(block: &[u8; 765], at: usize) -> [u8; N]
    requires { at + N ≤ 765 }
    ensures { result ≡ field at N block.now }
{
    let mut bytes = [0; N];
    bytes.copy_from_slice(&block[at..at + N]);
    bytes
}

fn number(block: &[u8; 765]) -> usize
    ensures { result ≡ number_in block.now }
{
    usize::from(u16::from_be_bytes([block[166], block[167]]))
}

fn sector_set(block: &[u8; 765]) -> u32
    ensures { result ≡ sectors_in block.now }
{
    u32::from_be_bytes([block[168], block[169], block[170], block[171]])
}

// The operation of a tag that goes with a buffer. The tags are numbers here: they are the layout of the block that C holds.
#[tactic(auto, unfolding(crate::specs::Block::buffered_of))]
fn buffered(tag: u8, buffer: Buffer, n: usize) -> Operation
    ensures { result ≡ buffered_of tag buffer n }
{
    match tag {
        0x83 => Operation::Program { buffer, page: n },
        0x88 => Operation::ProgramOver { buffer, page: n },
        0x53 => Operation::Transfer { buffer, page: n },
        0x60 => Operation::Compare { buffer, page: n },
        0x58 => Operation::Rewrite { buffer, page: n },
        _ => BEYOND,
    }
}

// The operation of a tag that goes with none; the tags are the layout of the block, too.
#[tactic(auto, unfolding(crate::specs::Block::plain_of))]
fn plain(block: &[u8; 765], tag: u8, n: usize) -> Operation
    ensures { result ≡ plain_of tag n (sectors_in block.now) (field 172 64 block.now) }
{
    match tag {
        0x00 => Operation::Idle,
        0x81 => Operation::ErasePage { page: n },
        0x50 => Operation::EraseBlock { block: n },
        0x7C => Operation::EraseSector { sector: n },
        0xC7 => Operation::EraseChip {
            sectors: sector_set(block),
        },
        0xCF => Operation::EraseProtection,
        0xFC => Operation::ProgramProtection {
            data: registers::packed16(&part(block, 172)),
        },
        0x30 => Operation::LockSector { sector: n },
        0x9B => Operation::ProgramSecurity {
            data: registers::packed64(&part(block, 172)),
        },
        _ => BEYOND,
    }
}

// The operation under way, by its tag and buffer.
#[tactic(auto, unfolding(crate::specs::Block::decode_operation, crate::specs::Block::operation_of))]
fn operation_in(block: &[u8; 765]) -> Operation
    ensures { result ≡ decode_operation block.now }
{
    let tag = block[164];
    let n = number(block);
    match block[165] {
        0 => plain(block, tag, n),
        1 => buffered(tag, Buffer::One, n),
        2 => buffered(tag, Buffer::Two, n),
        _ => BEYOND,
    }
}

// The operation under way. Mostly there is none, so that is told first. Whatever the block's bytes are, it holds a chip.
pub fn operation(block: &[u8; 765]) -> Operation
    ensures { (result ≡ decode_operation block.now) × (Holds (decode_chip block.now)) }
{
    if block[164] == 0 && block[165] == 0 {
        return Operation::Idle;
    }
    operation_in(block)
}

// What of the registers decides on a frame, with the operation under way.
#[tactic(auto, unfolding(crate::specs::Block::decode_registers))]
pub fn marks_at(block: &[u8; 765], o: Operation) -> Marks
    requires { o ≡ decode_operation block.now }
    ensures { result ≡ marks_of (decode_registers block.now) }
{
    Marks {
        seals: Seals {
            protection: part(block, 0),
            lockdown: part(block, 16),
            protect: block[161] != 0,
            wp: block[162] != 0,
        },
        used: block[160] != 0,
        deep: block[163] != 0,
        usage: control::usage_of(o),
    }
}

#[tactic(auto, unfolding(crate::specs::Block::decode_registers))]
fn decode_registers(block: &[u8; 765]) -> Registers
    ensures { result ≡ decode_registers block.now }
{
    Registers {
        protection: part(block, 0),
        lockdown: part(block, 16),
        user: part(block, 32),
        factory: part(block, 96),
        used: block[160] != 0,
        protect: block[161] != 0,
        wp: block[162] != 0,
        deep: block[163] != 0,
        operation: operation(block),
    }
}

// The chip that a block of any content holds.
pub fn decode(block: &[u8; 765]) -> Chip
    ensures { (result ≡ decode_chip block.now) × (Holds (decode_chip block.now)) }
{
    Chip {
        registers: decode_registers(block),
        buffer1: part(block, 236),
        buffer2: part(block, 500),
        compare: block[764] != 0,
    }
}
