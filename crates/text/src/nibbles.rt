// The worth of a hexadecimal digit.
ghost use Rattle.std.specs.Prelude.{◌≡◌};
ghost use Rattle.text.specs.Hexadecimal.{nibble_of, is_hex_digit};

#[tactic(auto, unfolding(crate::specs::Hexadecimal::is_hex_digit))]
pub fn is_hex_digit(b: u8) -> bool
    ensures { result ≡ is_hex_digit b }
{
    nibble(b).is_some()
}

// What the digit `b` is worth.
#[tactic(auto, unfolding(crate::specs::Hexadecimal::nibble_of))]
pub fn nibble(b: u8) -> Option<u8>
    ensures { result ≡ nibble_of b }
{
    match b {
        b'0'..=b'9' => Some(b - b'0'),
        b'A'..=b'F' => Some(b - b'A' + 10),
        b'a'..=b'f' => Some(b - b'a' + 10),
        _ => None,
    }
}
