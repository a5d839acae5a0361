// Writing the parts of the record block: marks, operation and its data.
// Internal to this repository: a caller here meets each `requires`; no entry point is in this crate.
#![tactic(auto)]

ghost use Rattle.std.specs.Prelude.{◌≡◌, ◌++◌, ◌+◌, ◌≤◌, get_or, length, replicate};
ghost use Rattle.slices.specs.Lists.{splice};
ghost use Rattle.registers.specs.Data.{bytes16};
ghost use Rattle.blocks.specs.Block.{flag, buffer_number, head_of, data_bytes, head_bytes, flagged};

use blocks::Heading;
use commands::Buffer;
use registers::{Data16, Operation, Update};

// The four marks that the block holds from index 160 on.
#[derive(Clone, Copy)]
pub struct Flags {
    pub used: bool,
    pub protect: bool,
    pub wp: bool,
    pub deep: bool,
}

// The marks of a block.
pub fn flags_in(block: &[u8; 765]) -> Flags
    ensures { result ≡ record { used = flag (get_or block.now 160 0); protect = flag (get_or block.now 161 0); wp = flag (get_or block.now 162 0); deep = flag (get_or block.now 163 0) } }
{
    Flags {
        used: block[160] != 0,
        protect: block[161] != 0,
        wp: block[162] != 0,
        deep: block[163] != 0,
    }
}

// No `From`: `Buffer` is of crate commands, and the number is the layout of the block that C holds.
fn buffer_number(b: Buffer) -> u8
    ensures { result ≡ buffer_number b }
{
    match b {
        Buffer::One => 1,
        Buffer::Two => 2,
    }
}

// A heading; the literal would take six lines in each arm of `head`.
fn headed(tag: u8, buffer: u8, number: usize, sectors: u32) -> Heading
    ensures { result ≡ record { tag = tag; buffer = buffer; number = number; sectors = sectors } }
{
    Heading {
        tag,
        buffer,
        number,
        sectors,
    }
}

// The tags are numbers here: they are the layout of the block that C holds.
#[tactic(auto, unfolding(blocks::specs::Block::head_of))]
fn head(o: Operation) -> Heading
    ensures { result ≡ head_of o }
{
    match o {
        Operation::Idle => headed(0x00, 0, 0, 0),
        Operation::Program { buffer, page } => headed(0x83, buffer_number(buffer), page, 0),
        Operation::ProgramOver { buffer, page } => headed(0x88, buffer_number(buffer), page, 0),
        Operation::Transfer { buffer, page } => headed(0x53, buffer_number(buffer), page, 0),
        Operation::Compare { buffer, page } => headed(0x60, buffer_number(buffer), page, 0),
        Operation::Rewrite { buffer, page } => headed(0x58, buffer_number(buffer), page, 0),
        Operation::ErasePage { page } => headed(0x81, 0, page, 0),
        Operation::EraseBlock { block } => headed(0x50, 0, block, 0),
        Operation::EraseSector { sector } => headed(0x7C, 0, sector, 0),
        Operation::EraseChip { sectors } => headed(0xC7, 0, 0, sectors),
        Operation::EraseProtection => headed(0xCF, 0, 0, 0),
        Operation::ProgramProtection { .. } => headed(0xFC, 0, 0, 0),
        Operation::LockSector { sector } => headed(0x30, 0, sector, 0),
        Operation::ProgramSecurity { .. } => headed(0x9B, 0, 0, 0),
    }
}

fn protection_bytes(data: Data16) -> [u8; 64]
    ensures { result ≡ bytes16 «data» ++ replicate 48 0 }
{
    let mut bytes = [0; 64];
    bytes[..16].copy_from_slice(&registers::unpacked16(data));
    bytes
}

// The 64 data bytes of an operation.
#[tactic(auto, unfolding(blocks::specs::Block::data_bytes))]
fn data_bytes(o: Operation) -> [u8; 64]
    ensures { result ≡ data_bytes o }
{
    match registers::update_of(o) {
        Update::MaskProtection { data } => protection_bytes(data),
        Update::WriteUser { data } => registers::unpacked64(data),
        Update::Keep | Update::FillProtection | Update::Lock { .. } => [0; 64],
    }
}

#[tactic(auto, unfolding(blocks::specs::Block::head_bytes))]
fn head_bytes(f: Flags, h: Heading) -> [u8; 12]
    ensures { result ≡ head_bytes (flagged f.used f.protect f.wp f.deep) h }
{
    let number = ((h.number % 65536) as u16).to_be_bytes();
    let sectors = h.sectors.to_be_bytes();
    [
        u8::from(f.used),
        u8::from(f.protect),
        u8::from(f.wp),
        u8::from(f.deep),
        h.tag,
        h.buffer,
        number[0],
        number[1],
        sectors[0],
        sectors[1],
        sectors[2],
        sectors[3],
    ]
}

// `part` stored from index `at` on.
pub fn put(block: &mut [u8; 765], at: usize, part: &[u8])
    requires { at + length part.now ≤ 765 }
    ensures { block.new ≡ splice at part.now block.old }
{
    block[at..at + part.len()].copy_from_slice(part);
}

// Marks stored, and no operation: the 76 bytes from index 160 on.
pub fn put_idle(block: &mut [u8; 765], f: Flags)
    ensures { block.new ≡ splice 160 (head_bytes (flagged f.used f.protect f.wp f.deep) (head_of Operation.Idle) ++ data_bytes Operation.Idle) block.old }
{
    put(block, 160, &head_bytes(f, headed(0x00, 0, 0, 0)));
    put(block, 172, &[0; 64]);
}

// Marks and operation stored: the 76 bytes from index 160 on.
pub fn put_operation(block: &mut [u8; 765], f: Flags, o: Operation)
    ensures { block.new ≡ splice 160 (head_bytes (flagged f.used f.protect f.wp f.deep) (head_of o) ++ data_bytes o) block.old }
{
    if let Operation::Idle = o {
        put_idle(block, f);
        return;
    }
    put(block, 160, &head_bytes(f, head(o)));
    put(block, 172, &data_bytes(o));
}
