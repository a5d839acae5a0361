// Why a word is not what it is read as.

// Why a word says no decimal number below 2^64.
#[derive(Clone, Copy, PartialEq, Eq)]
pub enum NumberError {
    NotNumber,
    TooLarge,
}

// Why a word makes no bytes.
#[derive(Clone, Copy, PartialEq, Eq)]
pub enum HexError {
    NotHex,
    Odd,
}
