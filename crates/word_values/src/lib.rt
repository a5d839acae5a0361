// What a word of a line is as a number, as HEX or as a date, or what is wrong with it. Every function named here takes any input.
#![tactic(auto)]

ghost use Rattle.std.specs.Prelude.{◌≡◌};
ghost use Rattle.text.specs.Decimal.{number_of};
ghost use Rattle.word_values.specs.Days.{date_part, date_of};
ghost use Rattle.word_values.specs.Values.{numbered, decimal_of, seed_of, if_word, level_of, length_of, number_as, test_hex};

use dates::Date;
use faults::{Fault, Name};
use text::{HexError, NumberError};

// What the number behind a command is.
#[derive(Clone, Copy)]
pub enum First {
    Slot,
    Seed,
    Level,
    Part,
    Nothing,
}

// The decimal number that the word is. An empty word is none.
pub fn number(word: &[u8], name: Name) -> Result<usize, Fault>
    ensures { result ≡ numbered name (number_of word.now) }
{
    match text::number(word) {
        Ok(v) => Ok(v as usize),
        Err(NumberError::NotNumber) => Err(Fault::NotNumber(name)),
        Err(NumberError::TooLarge) => Err(Fault::TooLarge(name)),
    }
}

// The decimal number that the word is. No word is an empty one.
pub fn decimal(word: &[u8], name: Name) -> Result<usize, Fault>
    ensures { result ≡ decimal_of word.now name }
{
    if word.is_empty() {
        return Err(Fault::Missing(name));
    }
    number(word, name)
}

fn seed(word: &[u8]) -> Result<usize, Fault>
    ensures { result ≡ seed_of word.now }
{
    let v = decimal(word, Name::Seed)?;
    Ok(v % 256)
}

// The number `n` where the word is `w`, else the other.
fn if_word(word: &[u8], w: &[u8], n: usize, other: Result<usize, Fault>) -> Result<usize, Fault>
    ensures { result ≡ if_word word.now w.now n other }
{
    if text::is_same(word, w) {
        return Ok(n);
    }
    other
}

fn level(word: &[u8]) -> Result<usize, Fault>
    ensures { result ≡ level_of word.now }
{
    if word.is_empty() {
        return Err(Fault::Missing(Name::Level));
    }
    let r = Err(Fault::NotLevel);
    let r = if_word(word, b"1", 1, r);
    if_word(word, b"0", 0, r)
}

// The length of the array of the part that the word names. The words differ, so that the order does not matter.
fn array_length(word: &[u8]) -> Result<usize, Fault>
    ensures { result ≡ length_of word.now }
{
    if word.is_empty() {
        return Err(Fault::Missing(Name::Part));
    }
    let r = Err(Fault::NotPart);
    let r = if_word(word, b"4096x256", 1048576, r);
    let r = if_word(word, b"128x256", 32768, r);
    let r = if_word(word, b"4096", 1081344, r);
    if_word(word, b"128", 33792, r)
}

#[tactic(auto, unfolding(crate::specs::Values::number_as))]
pub fn number_of(word: &[u8], k: First) -> Result<usize, Fault>
    ensures { result ≡ number_as word.now k }
{
    match k {
        First::Slot => decimal(word, Name::Slot),
        First::Seed => seed(word),
        First::Level => level(word),
        First::Part => array_length(word),
        First::Nothing => Ok(0),
    }
}

// Whether the word is an even number of hexadecimal digits, or `-`.
pub fn test_hex(word: &[u8], name: Name) -> Result<(), Fault>
    ensures { result ≡ test_hex word.now name }
{
    match hexadecimal::hex(word) {
        Ok(_) => Ok(()),
        Err(HexError::NotHex) => Err(Fault::NotHex(name)),
        Err(HexError::Odd) => Err(Fault::Odd(name)),
    }
}

// The year, the month or the day that the word is.
fn date_part(word: &[u8], name: Name) -> Result<u32, Fault>
    ensures { result ≡ date_part name (number_of word.now) }
{
    match text::number(word) {
        Ok(v) => u32::try_from(v).map_err(|_| Fault::TooLarge(name)),
        Err(NumberError::NotNumber) => Err(Fault::NotDate(name)),
        Err(NumberError::TooLarge) => Err(Fault::TooLarge(name)),
    }
}

// The date that the word is: three numbers joined by `-`; or the first fault.
#[tactic(auto, unfolding(crate::specs::Days::date_of))]
pub fn date(word: &[u8], name: Name) -> Result<Date, Fault>
    ensures { result ≡ date_of word.now name }
{
    let rest = text::behind_hyphen(word);
    let year = date_part(text::before_hyphen(word), name)?;
    let month = date_part(text::before_hyphen(rest), name)?;
    let day = date_part(text::behind_hyphen(rest), name)?;
    Ok(Date { year, month, day })
}
