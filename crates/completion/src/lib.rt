// A busy end on a chip whose part is known. The buffers are lent as one slice.
#![tactic(auto)]

ghost use Rattle.std.specs.Prelude.{◌≡◌, true, [], ◌*◌, ◌<◌, length, Some};
ghost use Rattle.geometry.specs.Parts.{Sized, page_room};
ghost use Rattle.registers.specs.Operations.{within};
ghost use Rattle.memory.specs.Pages.{erased};
ghost use Rattle.state.specs.Lent.{memory_in};
ghost use Rattle.state.specs.Completion.{in_target, completed_memory};
ghost use Rattle.state.specs.Memory.{state_of};
ghost use Rattle.state.specs.Outcomes.{Leaves, ended_by};
ghost use Rattle.completion.specs.Work.{array_by, buffer_by, bit_by};

use geometry::Geometry;
use registers::{Operation, Work};
use state::{Answer, Chip, Outcome};

// What a work on a page does to the array, to the buffer that it uses, and to the compare bit, which it returns.
#[tactic(auto, using(crate::proofs::Lent::idle))]
fn work(g: Geometry, w: Work, bit: bool, page: usize, array: &mut [u8], buffer: &mut [u8]) -> bool
    requires { (Sized g (length array.old)) × (page < g.pages) × (length buffer.old ≡ page_room) }
    ensures { (array.new ≡ array_by g page buffer.old array.old w) × (buffer.new ≡ buffer_by g page array.old buffer.old w) × (result ≡ bit_by g page array.old buffer.old bit w) }
{
    match w {
        Work::Program => {
            memory::program(g, array, page, buffer);
            bit
        }
        Work::ProgramOver => {
            memory::program_over(g, array, page, buffer);
            bit
        }
        Work::Transfer => {
            memory::transfer(g, array, page, buffer);
            bit
        }
        Work::Compare => memory::page_differs(g, array, page, buffer),
        _ => bit,
    }
}

// 81, 50, 7C, C7 94 80 9A: what the operation erases becomes FFh.
#[tactic(auto, using(geometry::proofs::Pages::sized_own, state::proofs::Arms::target_has, state::proofs::Arms::target_run, state::proofs::Arms::target_sectors))]
fn erase(g: Geometry, array: &mut [u8], o: Operation)
    requires { (Sized g (length array.old)) × (within g o ≡ true) }
    ensures { array.new ≡ in_target (erased g) g o array.old }
{
    let n = registers::target_of(o);
    memory::erase(g, array, registers::run_named(g, n));
    let sectors = registers::set_named(n);
    if sectors == 0 {
        return;
    }
    memory::erase_sectors(g, array, sectors);
}

// What the operation does to the memory as it ends: the array, the buffers, and the compare bit, which it returns.
pub fn complete_memory(
    g: Geometry,
    bit: bool,
    buffers: &mut [u8],
    array: &mut [u8],
    o: Operation,
) -> bool
    requires { (Sized g (length array.old)) × (within g o ≡ true) × (length buffers.old ≡ 2 * page_room) }
    ensures { memory_in array.new buffers.new result ≡ completed_memory g o (memory_in array.old buffers.old bit) }
{
    let f = registers::facts_of(o);
    let page = registers::page_named(f.names);
    let buffer = registers::buffer_of(f.usage);
    if let Work::Erase = f.work {
        erase(g, array, o);
        return bit;
    }
    let a = state::buffer_start(buffer);
    work(g, f.work, bit, page, array, &mut buffers[a..a + 264])
}

// The busy end of a chip by value.
pub fn end_in(g: Geometry, c: Chip, array: &mut [u8]) -> Outcome
    requires { (Sized g (length array.old)) × (within g c.registers.operation ≡ true) }
    ensures { Leaves (ended_by (Some g) (state_of c array.old)) result array.new [] }
{
    let mut buffers = state::buffers_of(c);
    let bit = complete_memory(g, c.compare, &mut buffers, array, c.registers.operation);
    let after = register_ends::complete(g, c.registers);
    Outcome {
        answer: Answer::Done,
        chip: state::chip_of(after, buffers, bit),
    }
}
