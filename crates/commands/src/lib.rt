// The command table of the AT45DB081D; crate decoding says which of its rows a frame is.
// Internal to this repository; no entry point is in this crate.
#![tactic(auto)]

ghost use Rattle.std.specs.Prelude.{◌≡◌};
ghost use Rattle.commands.specs.Decode.{lookup_of};

// One of the two page buffers.
#[derive(Clone, Copy, PartialEq, Eq)]
pub enum Buffer {
    One,
    Two,
}

// What a command does, as the table's last column says.
#[derive(Clone, Copy)]
pub enum Effect {
    // D2: read a page, wrapping in it.
    ReadPage,
    // 03, 0B: read on through the array.
    ReadArray,
    // D1/D3, D4/D6.
    ReadBuffer(Buffer),
    // 84/87.
    WriteBuffer(Buffer),
    // 83/86: the page becomes the buffer.
    Program(Buffer),
    // 88/89: the page becomes page AND buffer.
    ProgramOver(Buffer),
    // 82/85: the buffer is written, then programmed.
    ProgramThrough(Buffer),
    // 81, 50, 7C, C7 94 80 9A.
    ErasePage,
    EraseBlock,
    EraseSector,
    EraseChip,
    // 53/55: the buffer becomes the page.
    Transfer(Buffer),
    // 60/61.
    Compare(Buffer),
    // 58/59: as 53/55, the page rewritten.
    Rewrite(Buffer),
    // 3D 2A 7F A9 and 9A, CF, FC, 30.
    ProtectOn,
    ProtectOff,
    EraseProtection,
    ProgramProtection,
    LockSector,
    // 9B 00 00 00.
    ProgramSecurity,
    // 32, 35, 77, D7, 9F.
    ReadProtection,
    ReadLockdown,
    ReadSecurity,
    ReadStatus,
    ReadId,
    // B9, AB.
    PowerDown,
    Resume,
    // No row: the frame is ignored.
    Unlisted,
}

// A row that opens with one byte: opcode, lead (the bytes before data), effect. Four bytes in all.
#[derive(Clone, Copy)]
pub struct Command(pub u8, pub u8, pub Effect);

// A frame's row, whichever way it opens.
#[derive(Clone, Copy)]
pub struct Decoded {
    pub lead: usize,
    pub effect: Effect,
}

// The rows that open with one byte.
const COMMANDS: [Command; 31] = [
    Command(0xD2, 8, Effect::ReadPage),
    Command(0x03, 4, Effect::ReadArray),
    Command(0x0B, 5, Effect::ReadArray),
    Command(0xD1, 4, Effect::ReadBuffer(Buffer::One)),
    Command(0xD3, 4, Effect::ReadBuffer(Buffer::Two)),
    Command(0xD4, 5, Effect::ReadBuffer(Buffer::One)),
    Command(0xD6, 5, Effect::ReadBuffer(Buffer::Two)),
    Command(0x84, 4, Effect::WriteBuffer(Buffer::One)),
    Command(0x87, 4, Effect::WriteBuffer(Buffer::Two)),
    Command(0x83, 4, Effect::Program(Buffer::One)),
    Command(0x86, 4, Effect::Program(Buffer::Two)),
    Command(0x88, 4, Effect::ProgramOver(Buffer::One)),
    Command(0x89, 4, Effect::ProgramOver(Buffer::Two)),
    Command(0x82, 4, Effect::ProgramThrough(Buffer::One)),
    Command(0x85, 4, Effect::ProgramThrough(Buffer::Two)),
    Command(0x81, 4, Effect::ErasePage),
    Command(0x50, 4, Effect::EraseBlock),
    Command(0x7C, 4, Effect::EraseSector),
    Command(0x53, 4, Effect::Transfer(Buffer::One)),
    Command(0x55, 4, Effect::Transfer(Buffer::Two)),
    Command(0x60, 4, Effect::Compare(Buffer::One)),
    Command(0x61, 4, Effect::Compare(Buffer::Two)),
    Command(0x58, 4, Effect::Rewrite(Buffer::One)),
    Command(0x59, 4, Effect::Rewrite(Buffer::Two)),
    Command(0x32, 4, Effect::ReadProtection),
    Command(0x35, 4, Effect::ReadLockdown),
    Command(0x77, 4, Effect::ReadSecurity),
    Command(0xD7, 1, Effect::ReadStatus),
    Command(0x9F, 1, Effect::ReadId),
    Command(0xB9, 1, Effect::PowerDown),
    Command(0xAB, 1, Effect::Resume),
];

// The row with this opcode, if there is one. A match, since a constant table that is read at a computed index is built anew at each read.
#[tactic(auto, unfolding(crate::specs::Decode::lookup_of, crate::specs::Decode::lookup_in, crate::specs::Table::commands))]
pub fn lookup(opcode: u8) -> Option<Command>
    ensures { result ≡ lookup_of opcode }
{
    let rows = COMMANDS;
    match opcode {
        0xD2 => Some(rows[0]),
        0x03 => Some(rows[1]),
        0x0B => Some(rows[2]),
        0xD1 => Some(rows[3]),
        0xD3 => Some(rows[4]),
        0xD4 => Some(rows[5]),
        0xD6 => Some(rows[6]),
        0x84 => Some(rows[7]),
        0x87 => Some(rows[8]),
        0x83 => Some(rows[9]),
        0x86 => Some(rows[10]),
        0x88 => Some(rows[11]),
        0x89 => Some(rows[12]),
        0x82 => Some(rows[13]),
        0x85 => Some(rows[14]),
        0x81 => Some(rows[15]),
        0x50 => Some(rows[16]),
        0x7C => Some(rows[17]),
        0x53 => Some(rows[18]),
        0x55 => Some(rows[19]),
        0x60 => Some(rows[20]),
        0x61 => Some(rows[21]),
        0x58 => Some(rows[22]),
        0x59 => Some(rows[23]),
        0x32 => Some(rows[24]),
        0x35 => Some(rows[25]),
        0x77 => Some(rows[26]),
        0xD7 => Some(rows[27]),
        0x9F => Some(rows[28]),
        0xB9 => Some(rows[29]),
        0xAB => Some(rows[30]),
        _ => None,
    }
}
