// The AT45DB081D as docs/SPECIFICATION.md describes it: a chip record by value and the array as a lent slice.
// Entry points: fresh, send, end_busy, move_pin, cut; `number`, for the answers, is one of crate state. None has a `requires`: bad input is
// refused, and a refusal changes nothing.
#![tactic(auto)]

ghost use Rattle.std.specs.Prelude.{List, [], ℕ};
ghost use Rattle.state.specs.Memory.{state_of};
ghost use Rattle.state.specs.Outcomes.{Leaves, fresh_outcome, send_outcome, end_outcome, pin_outcome, cut_outcome};

use registers::{Operation, Registers};
use state::{Answer, Chip, Outcome};

// A fresh chip with these factory bytes; the array becomes FFh. Answer 1 for an array of another length, which keeps its bytes.
pub fn fresh(factory: [u8; 64], array: &mut [u8]) -> Outcome
    ensures { Leaves (fresh_outcome factory array.old) result array.new [] }
{
    let registers = Registers {
        protection: [0u8; 16],
        lockdown: [0u8; 16],
        user: [255u8; 64],
        factory,
        used: false,
        protect: false,
        wp: true,
        deep: false,
        operation: Operation::Idle,
    };
    let chip = Chip {
        registers,
        buffer1: [0u8; 264],
        buffer2: [0u8; 264],
        compare: false,
    };
    let answer = match geometry::part_of(array.len()) {
        Some(_) => {
            slices::fill(array, 255);
            Answer::Done
        }
        None => Answer::Part,
    };
    Outcome { answer, chip }
}

// A frame sent straight to the chip, with its reply in the lent buffer. Answers 0, 1, 2.
pub fn send(c: Chip, array: &[u8], frame: &[u8], reply: &mut [u8]) -> Outcome
    ensures { Leaves (send_outcome (state_of c array.now) frame.now reply.old) result array.now reply.new }
{
    match registers::place(array.len(), c.registers.operation) {
        Some(g) => frames::send_to(g, c, array, frame, reply),
        None => Outcome {
            answer: Answer::Part,
            chip: c,
        },
    }
}

// The operation under way ends and takes effect. Answers 0, 1.
pub fn end_busy(c: Chip, array: &mut [u8]) -> Outcome
    ensures { Leaves (end_outcome (state_of c array.old)) result array.new [] }
{
    match registers::place(array.len(), c.registers.operation) {
        Some(g) => completion::end_in(g, c, array),
        None => Outcome {
            answer: Answer::Part,
            chip: c,
        },
    }
}

// The WP pin is moved. Answer 0.
#[tactic(auto, unfolding(state::specs::Outcomes::pin_outcome, state::specs::Outcomes::pinned_state))]
pub fn move_pin(c: Chip, high: bool) -> Outcome
    ensures { (xs : List ℕ) → Leaves (pin_outcome high (state_of c xs)) result xs [] }
{
    Outcome {
        answer: Answer::Done,
        chip: state::with_registers(c, registers::with_wp(c.registers, high)),
    }
}

// The supply is cut, with junk for what was being written. Answers 0, 1, 7.
pub fn cut(c: Chip, array: &mut [u8], junk: &[u8]) -> Outcome
    ensures { Leaves (cut_outcome junk.now (state_of c array.old)) result array.new [] }
{
    match registers::place(array.len(), c.registers.operation) {
        Some(g) => power_loss::cut_in(g, c, array, junk),
        None => Outcome {
            answer: Answer::Part,
            chip: c,
        },
    }
}
