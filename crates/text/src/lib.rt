// Words of a line, their parts at hyphens, decimal numbers, and the worth of hexadecimal digits. Every function named here takes any input.
#![tactic(auto)]

pub use decimal::number;
pub use hyphens::{before_hyphen, behind_hyphen};
pub use nibbles::{is_hex_digit, nibble};
pub use spans::{is_same, skip_blanks, word_end};
pub use values::{HexError, NumberError};

mod decimal;
mod hyphens;
mod nibbles;
mod scans;
mod spans;
mod values;
