// Writing into the record block what a frame or a busy end changes of the registers.
// Internal to this repository: a caller here meets each `requires`; no entry point is in this crate.
#![tactic(auto)]

ghost use Rattle.std.specs.Prelude.{◌≡◌};
ghost use Rattle.control.specs.Rulings.{changed};
ghost use Rattle.state.specs.Memory.{with_registers};
ghost use Rattle.blocks.specs.Block.{decode_operation, decode_registers, decode_chip, encode_chip};

use block_parts::Flags;
use control::Change;
use registers::Operation;

// The change stored, with the operation that is then under way.
fn settle_in(block: &mut [u8; 765], o: Operation, c: Change)
    requires { o ≡ decode_operation block.old }
    ensures { block.new ≡ encode_chip (with_registers (decode_chip block.old) (changed c (decode_registers block.old))) }
{
    let flags = block_parts::flags_in(block);
    block[764] = u8::from(block[764] != 0);
    match c {
        Change::Nothing => block_parts::put_operation(block, flags, o),
        Change::Start { operation } => block_parts::put_operation(block, flags, operation),
        Change::Protect { on } => {
            block_parts::put_operation(
                block,
                Flags {
                    protect: on,
                    ..flags
                },
                o,
            )
        }
        Change::Sleep { on } => block_parts::put_operation(block, Flags { deep: on, ..flags }, o),
    }
}

// No operation is under way any more; what else the block holds stays, as it is stored.
pub fn rest(block: &mut [u8; 765])
    ensures { block.new ≡ encode_chip (with_registers (decode_chip block.old) (changed (Change.Start Operation.Idle) (decode_registers block.old))) }
{
    let flags = block_parts::flags_in(block);
    block[764] = u8::from(block[764] != 0);
    block_parts::put_idle(block, flags);
}

// The change stored into a block whose operation under way is `o`; what else the block holds stays, as it is stored. Mostly nothing
// changes on an idle chip.
pub fn settle(block: &mut [u8; 765], o: Operation, c: Change)
    requires { o ≡ decode_operation block.old }
    ensures { block.new ≡ encode_chip (with_registers (decode_chip block.old) (changed c (decode_registers block.old))) }
{
    match (c, o) {
        (Change::Nothing, Operation::Idle) => rest(block),
        _ => settle_in(block, o, c),
    }
}
