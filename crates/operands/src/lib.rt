// The words behind a command that have a place: its number, PLACE and HEX.
#![tactic(auto)]

ghost use Rattle.std.specs.Prelude.{◌≡◌};
ghost use Rattle.operands.specs.Operands.{first_of, takes_place, takes_bytes, is_nothing, take_first, take_place, take_bytes, operands_of};

use faults::{Fault, Name};
use word_values::First;
use words::{Command, Span};

// The words read up to index `at`.
#[derive(Clone, Copy)]
pub struct Taken {
    pub number: usize,
    pub place: usize,
    pub bytes: Span,
    pub at: usize,
}

fn first_of(c: Command) -> First
    ensures { result ≡ first_of c }
{
    match c {
        Command::Put | Command::Patch | Command::Get | Command::Wipe => First::Slot,
        Command::Pin => First::Level,
        Command::Cut => First::Seed,
        Command::Part => First::Part,
        _ => First::Nothing,
    }
}

fn takes_place(c: Command) -> bool
    ensures { result ≡ takes_place c }
{
    matches!(c, Command::Patch)
}

fn takes_bytes(c: Command) -> bool
    ensures { result ≡ takes_bytes c }
{
    matches!(
        c,
        Command::Put | Command::Patch | Command::Raw | Command::Send
    )
}

fn is_nothing(k: First) -> bool
    ensures { result ≡ is_nothing k }
{
    matches!(k, First::Nothing)
}

// The number behind the command, where it has one.
#[tactic(auto, unfolding(crate::specs::Operands::take_first))]
fn take_number(line: &[u8], c: Command, at: usize) -> Result<Taken, Fault>
    ensures { result ≡ take_first line.now at (first_of c) }
{
    let none = Taken {
        number: 0,
        place: 0,
        bytes: Span { start: 0, end: 0 },
        at,
    };
    let k = first_of(c);
    if is_nothing(k) {
        return Ok(none);
    }
    let w = words::next_word(line, at);
    let number = word_values::number_of(&line[w.start..w.end], k)?;
    Ok(Taken {
        number,
        at: w.end,
        ..none
    })
}

// PLACE, where the command has it.
#[tactic(auto, unfolding(crate::specs::Operands::take_place))]
fn take_place(line: &[u8], c: Command, t: Taken) -> Result<Taken, Fault>
    ensures { result ≡ take_place line.now c t }
{
    if !takes_place(c) {
        return Ok(t);
    }
    let w = words::next_word(line, t.at);
    let place = word_values::decimal(&line[w.start..w.end], Name::Place)?;
    Ok(Taken {
        place,
        at: w.end,
        ..t
    })
}

// HEX, where the command has it.
#[tactic(auto, unfolding(crate::specs::Operands::take_bytes))]
fn take_bytes(line: &[u8], c: Command, t: Taken) -> Result<Taken, Fault>
    ensures { result ≡ take_bytes line.now c t }
{
    if !takes_bytes(c) {
        return Ok(t);
    }
    let w = words::next_word(line, t.at);
    if w.start == w.end {
        return Err(Fault::Missing(Name::Hex));
    }
    word_values::test_hex(&line[w.start..w.end], Name::Hex)?;
    Ok(Taken {
        bytes: w,
        at: w.end,
        ..t
    })
}

// The words that have a place, or the first fault.
#[tactic(auto, unfolding(crate::specs::Operands::operands_of))]
pub fn read_operands(line: &[u8], c: Command, at: usize) -> Result<Taken, Fault>
    ensures { result ≡ operands_of line.now c at }
{
    let t = take_number(line, c, at)?;
    let t = take_place(line, c, t)?;
    take_bytes(line, c, t)
}
