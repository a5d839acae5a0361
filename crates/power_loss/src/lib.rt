// A cut on a chip whose part is known.
#![tactic(auto)]

ghost use Rattle.std.specs.Prelude.{◌≡◌, true, false, [], ◌+◌, ◌*◌, ◌≤◌, length, Some};
ghost use Rattle.geometry.specs.Parts.{Sized, page_room};
ghost use Rattle.registers.specs.Operations.{within};
ghost use Rattle.memory.specs.Pages.{junk_buffer};
ghost use Rattle.state.specs.PowerLoss.{array_lost};
ghost use Rattle.state.specs.Memory.{state_of};
ghost use Rattle.state.specs.Outcomes.{Leaves, cut_by};

use geometry::Geometry;
use registers::Operation;
use state::{Answer, Chip, Outcome};

// The array bytes that the operation would have written become junk.
fn spoil_array(g: Geometry, array: &mut [u8], junk: &[u8], o: Operation)
    requires { (Sized g (length array.old)) × (within g o ≡ true) × (length junk.now ≡ 2 * g.size + length array.old) }
    ensures { array.new ≡ array_lost g o junk.now array.old }
{
    let n = registers::target_of(o);
    memory::spoil(g, array, junk, registers::run_named(g, n));
    memory::spoil_sectors(g, array, junk, registers::set_named(n));
}

// Both buffers become junk, and the compare bit 0.
fn spoil_buffers(g: Geometry, c: Chip, junk: &[u8]) -> Chip
    requires { (g.size ≤ page_room) × (2 * g.size ≤ length junk.now) }
    ensures { result ≡ record { registers = c.registers; buffer1 = junk_buffer g junk.now 0 c.buffer1; buffer2 = junk_buffer g junk.now g.size c.buffer2; compare = false } }
{
    let mut buffer1 = c.buffer1;
    memory::spoil_buffer(g, &mut buffer1, junk, 0);
    let mut buffer2 = c.buffer2;
    memory::spoil_buffer(g, &mut buffer2, junk, g.size);
    Chip {
        buffer1,
        buffer2,
        compare: false,
        ..c
    }
}

pub fn cut_in(g: Geometry, c: Chip, array: &mut [u8], junk: &[u8]) -> Outcome
    requires { (Sized g (length array.old)) × (within g c.registers.operation ≡ true) }
    ensures { Leaves (cut_by (Some g) junk.now (state_of c array.old)) result array.new [] }
{
    if junk.len() != 2 * g.size + array.len() {
        return Outcome {
            answer: Answer::Script,
            chip: c,
        };
    }
    spoil_array(g, array, junk, c.registers.operation);
    let n = spoil_buffers(g, c, junk);
    let after = register_ends::lose(g, c.registers, junk);
    Outcome {
        answer: Answer::Done,
        chip: state::with_registers(n, after),
    }
}
