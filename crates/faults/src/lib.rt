// What can be wrong with a line of the program `outline`, and the text that says so: a name, and what is said of it.
#![tactic(auto)]

ghost use Rattle.std.specs.Prelude.{◌≡◌, ◌≤◌, ◌++◌};
ghost use Rattle.faults.specs.Messages.{Put, key_text, name_text, over_text, text_of};

use slices::put;
use words::Key;

// What a fault lies in: a word by its place, or the value of an option.
#[derive(Clone, Copy)]
pub enum Name {
    Slot,
    Place,
    Hex,
    Seed,
    Level,
    Part,
    Option(Key),
}

// What is wrong with a line. TooLong is also for whoever reads a line in parts and never holds it whole.
#[derive(Clone, Copy)]
pub enum Fault {
    TooLong,
    NoCommand,
    UnknownCommand,
    Missing(Name),
    NotNumber(Name),
    NotDate(Name),
    TooLarge(Name),
    NotHex(Name),
    Odd(Name),
    NotLevel,
    NotPart,
    UnknownOption,
    TooManyWords,
    Twice,
    Over(Key),
}

// The name of an option.
#[tactic(auto, unfolding(crate::specs::Messages::key_text))]
fn key_text(k: Key) -> &'static [u8]
    ensures { result.now ≡ key_text k }
{
    match k {
        Key::Limit => b"b",
        Key::Script => b"script",
        Key::Seed => b"junk",
        Key::Junk => b"junklen",
        Key::Log => b"log",
        Key::Buffer => b"buffer",
        Key::Reply => b"reply",
        Key::First => b"first",
        Key::Last => b"last",
        Key::Today => b"today",
    }
}

// What is written for an operand or an option.
#[tactic(auto, unfolding(crate::specs::Messages::name_text))]
fn name_text(n: Name) -> &'static [u8]
    ensures { result.now ≡ name_text n }
{
    match n {
        Name::Slot => b"S",
        Name::Place => b"PLACE",
        Name::Hex => b"HEX",
        Name::Seed => b"SEED",
        Name::Level => b"level",
        Name::Part => b"part",
        Name::Option(k) => key_text(k),
    }
}

// The room that an option's length is over.
#[tactic(auto, unfolding(crate::specs::Messages::over_text))]
fn over_text(k: Key) -> &'static [u8]
    ensures { result.now ≡ over_text k }
{
    match k {
        Key::Junk => b" is over 1114112",
        Key::Log => b" is over 102204",
        _ => b" is over 65536",
    }
}

// What a fault lies in, where that is named, and what is said of it.
#[tactic(auto, unfolding(crate::specs::Messages::text_of))]
fn parts(f: Fault) -> (&'static [u8], &'static [u8])
    ensures { result.0.now ++ result.1.now ≡ text_of f }
{
    match f {
        Fault::TooLong => (b"", b"longer than 8192 characters"),
        Fault::NoCommand => (b"", b"no command"),
        Fault::UnknownCommand => (b"", b"unknown command"),
        Fault::Missing(n) => (name_text(n), b" is missing"),
        Fault::NotNumber(n) => (name_text(n), b" is not a number"),
        Fault::NotDate(n) => (name_text(n), b" is not a date"),
        Fault::TooLarge(n) => (name_text(n), b" is too large"),
        Fault::NotHex(n) => (
            name_text(n),
            b" has a character that is not a hexadecimal digit",
        ),
        Fault::Odd(n) => (name_text(n), b" has an odd number of digits"),
        Fault::NotLevel => (b"", b"level is not 0 or 1"),
        Fault::NotPart => (b"", b"part is not 128, 4096, 128x256 or 4096x256"),
        Fault::UnknownOption => (b"", b"unknown option"),
        Fault::TooManyWords => (b"", b"too many words"),
        Fault::Twice => (b"", b"option given twice"),
        Fault::Over(k) => (key_text(k), over_text(k)),
    }
}

// The text of a fault, at the start of `out`, and its length.
pub fn message(f: Fault, out: &mut [u8; 64]) -> usize
    ensures { Put 0 (text_of f) out.old out.new result × (result ≤ 64) }
{
    let (subject, said) = parts(f);
    let k = put(out, 0, subject);
    put(out, k, said)
}
