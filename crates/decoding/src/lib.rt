// Which row of the command table a frame is.
// Internal to this repository: a caller here meets each `requires`; no entry point is in this crate.
#![tactic(auto)]

ghost use Rattle.std.specs.Prelude.{◌≡◌};
ghost use Rattle.commands.specs.Table.{sequences};
ghost use Rattle.commands.specs.Decode.{begins, sequence_in, complete, decode_of};

use commands::{Decoded, Effect};

// A row that opens with four bytes.
struct Opening {
    bytes: [u8; 4],
    lead: usize,
    effect: Effect,
}

// The rows that open with four bytes.
const OPENINGS: [Opening; 7] = [
    Opening {
        bytes: [0xC7, 0x94, 0x80, 0x9A],
        lead: 4,
        effect: Effect::EraseChip,
    },
    Opening {
        bytes: [0x3D, 0x2A, 0x7F, 0xA9],
        lead: 4,
        effect: Effect::ProtectOn,
    },
    Opening {
        bytes: [0x3D, 0x2A, 0x7F, 0x9A],
        lead: 4,
        effect: Effect::ProtectOff,
    },
    Opening {
        bytes: [0x3D, 0x2A, 0x7F, 0xCF],
        lead: 4,
        effect: Effect::EraseProtection,
    },
    Opening {
        bytes: [0x3D, 0x2A, 0x7F, 0xFC],
        lead: 4,
        effect: Effect::ProgramProtection,
    },
    Opening {
        bytes: [0x3D, 0x2A, 0x7F, 0x30],
        lead: 7,
        effect: Effect::LockSector,
    },
    Opening {
        bytes: [0x9B, 0x00, 0x00, 0x00],
        lead: 4,
        effect: Effect::ProgramSecurity,
    },
];

const UNLISTED: Decoded = Decoded {
    lead: 0,
    effect: Effect::Unlisted,
};

// Whether the frame begins with the four bytes.
#[tactic(auto, unfolding(commands::specs::Decode::begins, slices::specs::Lists::same))]
fn begins_with(frame: &[u8], opening: &[u8; 4]) -> bool
    ensures { result ≡ begins frame.now opening.now }
{
    4 <= frame.len() && !slices::differs(&frame[..4], opening)
}

// The row whose four bytes begin the frame.
fn sequence(frame: &[u8]) -> Decoded
    ensures { result ≡ sequence_in sequences frame.now }
{
    for row in &OPENINGS {
        if begins_with(frame, &row.bytes) {
            return Decoded {
                lead: row.lead,
                effect: row.effect,
            };
        }
    }
    UNLISTED
}

// A row whose lead the frame does not fill is no row.
#[tactic(auto, unfolding(commands::specs::Decode::complete))]
fn completed(length: usize, d: Decoded) -> Decoded
    ensures { result ≡ complete length d }
{
    if d.lead <= length { d } else { UNLISTED }
}

// A frame's row: its lead and effect.
#[tactic(auto, unfolding(commands::specs::Decode::decode_of, commands::specs::Decode::opened))]
pub fn decode(frame: &[u8]) -> Decoded
    ensures { result ≡ decode_of frame.now }
{
    if frame.is_empty() {
        return UNLISTED;
    }
    match commands::lookup(frame[0]) {
        Some(c) => completed(
            frame.len(),
            Decoded {
                lead: c.1 as usize,
                effect: c.2,
            },
        ),
        None => completed(frame.len(), sequence(frame)),
    }
}
