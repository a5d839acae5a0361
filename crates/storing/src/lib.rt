// Writing a chip, or the level of its WP pin, into the record block.
// Internal to this repository: a caller here meets each `requires`; no entry point is in this crate.
#![tactic(auto)]

ghost use Rattle.std.specs.Prelude.{◌≡◌};
ghost use Rattle.slices.specs.Lists.{over};
ghost use Rattle.state.specs.Answers.{number_of};
ghost use Rattle.blocks.specs.Block.{encode_registers, encode_chip};
ghost use Rattle.blocks.specs.Promises.{stored_by, pin_moved};

use block_parts::Flags;
use registers::Registers;
use state::{Chip, Outcome};

// The registers stored into the block's first 236 bytes.
fn encode_registers(block: &mut [u8; 765], r: Registers)
    ensures { block.new ≡ over (encode_registers r) block.old }
{
    block_parts::put(block, 0, &r.protection);
    block_parts::put(block, 16, &r.lockdown);
    block_parts::put(block, 32, &r.user);
    block_parts::put(block, 96, &r.factory);
    let flags = Flags {
        used: r.used,
        protect: r.protect,
        wp: r.wp,
        deep: r.deep,
    };
    block_parts::put_operation(block, flags, r.operation);
}

// The WP pin's level stored.
#[tactic(auto, using(blocks::proofs::RoundTrip::from_flag), unfolding(blocks::specs::Promises::pin_moved))]
pub fn move_pin(block: &mut [u8; 765], high: bool)
    ensures { block.new ≡ pin_moved block.old high }
{
    block[162] = u8::from(high);
}

// The chip stored into the block.
fn encode(block: &mut [u8; 765], c: Chip)
    ensures { block.new ≡ encode_chip c }
{
    encode_registers(block, c.registers);
    block_parts::put(block, 236, &c.buffer1);
    block_parts::put(block, 500, &c.buffer2);
    block[764] = u8::from(c.compare);
}

// What the outcome leaves in the block, and its answer's number, which `stored_by` asks and C gets.
#[tactic(auto, unfolding(blocks::specs::Promises::stored_by))]
pub fn store(block: &mut [u8; 765], o: Outcome) -> u8
    ensures { (result ≡ number_of o.answer) × (block.new ≡ stored_by block.old o.answer o.chip) }
{
    let n = state::number(o.answer);
    if n == 0 {
        encode(block, o.chip);
    }
    n
}
