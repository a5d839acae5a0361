// Decimal numbers.
ghost use Rattle.std.specs.Prelude.{◌≡◌, ◌-◌, ◌<◌};
ghost use Rattle.text.specs.Decimal.{is_digit, number_of, value_from, below_limit};

use crate::values::NumberError;

// The number that a word of decimal digits says: NotNumber for an empty word or one with another byte, TooLarge from 2^64 on.
pub fn number(word: &[u8]) -> Result<u64, NumberError>
    ensures { result ≡ number_of word.now }
{
    if word.is_empty() {
        return Err(NumberError::NotNumber);
    }
    if word.iter().all(|b| is_digit(*b)) {
        return value(word);
    }
    Err(NumberError::NotNumber)
}

#[tactic(auto, unfolding(crate::specs::Decimal::is_digit))]
pub fn is_digit(b: u8) -> bool
    ensures { result ≡ is_digit b }
{
    matches!(b, b'0'..=b'9')
}

// The value of a word of digits. A sum is made only where it is below 2^64.
fn value(word: &[u8]) -> Result<u64, NumberError>
    ensures { result ≡ below_limit (value_from 0 word.now) }
{
    let mut v: u64 = 0;
    for b in word {
        let tenfold = v.checked_mul(10).ok_or(NumberError::TooLarge)?;
        v = tenfold.checked_add(worth(*b)).ok_or(NumberError::TooLarge)?;
    }
    Ok(v)
}

// What the digit `b` is worth.
fn worth(b: u8) -> u64
    ensures { (result ≡ b - 48) × (result < 256) }
{
    u64::from(b.saturating_sub(b'0'))
}
