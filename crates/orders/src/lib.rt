// What a line of the program `outline` says, or what is wrong with it. No function that outsiders call has a `requires`.
#![tactic(auto)]

ghost use Rattle.std.specs.Prelude.{◌≡◌, length};
ghost use Rattle.operands.specs.Operands.{operands_of};
ghost use Rattle.orders.specs.Bounds.{SoundReading};
ghost use Rattle.orders.specs.Orders.{term_of, order_of};
ghost use Rattle.orders.specs.Lines.{with_operands, read_of};

use dates::{Date, Term};
pub use faults::{Fault, message};
use operands::Taken;
use settings::{Days, Settings};
pub use words::{Command, Span, is_call};

// The longest line, in characters.
const LONGEST: usize = 8192;

// script= where it is not given.
const NOWHERE: Span = Span { start: 0, end: 0 };

// today= where it is not given.
const FIRST_DAY: Date = Date {
    year: 2000,
    month: 1,
    day: 1,
};

// last= where it is not given: no day.
const NO_DATE: Date = Date {
    year: 0,
    month: 0,
    day: 0,
};

#[derive(Clone, Copy)]
pub struct Order {
    pub command: Command,
    // S of a call; 0 or 1 of pin; SEED of cut, modulo 256; the length of the array of part; else 0.
    pub number: usize,
    // PLACE of patch, else 0.
    pub place: usize,
    // HEX of put, patch, raw and send; else empty.
    pub bytes: Span,
    // b=
    pub limit: usize,
    // script=
    pub script: Span,
    // junk=, modulo 256.
    pub seed: usize,
    // junklen=. Of these four, a length that is not given is as long as the call needs.
    pub junk: Option<usize>,
    pub log: Option<usize>,
    pub buffer: Option<usize>,
    pub reply: Option<usize>,
    // first= and last=
    pub term: Term,
    // today=, else 1 January 2000.
    pub today: Date,
}

// What the line says (`read_of`). Of an order: its spans lie in the line, its lengths within their rooms, its numbers in their ranges.
pub fn read(line: &[u8]) -> Result<Order, Fault>
    ensures { SoundReading (length line.now) result × (result ≡ read_of line.now) }
{
    if LONGEST < line.len() {
        return Err(Fault::TooLong);
    }
    let w = words::next_word(line, 0);
    if w.start == w.end {
        return Err(Fault::NoCommand);
    }
    match words::command_of(&line[w.start..w.end]) {
        Some(c) => read_rest(line, c, w.end),
        None => Err(Fault::UnknownCommand),
    }
}

// What the line says from index `at` on, behind its command.
fn read_rest(line: &[u8], c: Command, at: usize) -> Result<Order, Fault>
    ensures { result ≡ with_operands line.now c (operands_of line.now c at) }
{
    let taken = operands::read_operands(line, c, at)?;
    let set = options::read_options(line, c, taken.at)?;
    Ok(order_of(c, taken, set))
}

// The term from first= to last=. They are given both or neither.
fn term_of(d: Days) -> Term
    ensures { result ≡ term_of d }
{
    match d.first {
        Some(first) => {
            let last = d.last.unwrap_or(NO_DATE);
            Term::Between { first, last }
        }
        None => Term::Unlimited,
    }
}

#[tactic(auto, unfolding(crate::specs::Orders::order_of))]
fn order_of(c: Command, t: Taken, s: Settings) -> Order
    ensures { result ≡ order_of c t s }
{
    Order {
        command: c,
        number: t.number,
        place: t.place,
        bytes: t.bytes,
        limit: s.limit.unwrap_or(1),
        script: s.script.unwrap_or(NOWHERE),
        seed: s.seed.unwrap_or(0) % 256,
        junk: s.junk,
        log: s.log,
        buffer: s.buffer,
        reply: s.reply,
        term: term_of(s.days),
        today: s.days.today.unwrap_or(FIRST_DAY),
    }
}
