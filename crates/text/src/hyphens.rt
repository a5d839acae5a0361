// A word on either side of its first hyphen.
ghost use Rattle.std.specs.Prelude.{◌≡◌};
ghost use Rattle.text.specs.Hyphens.{before_hyphen, behind_hyphen};

use crate::scans::scan;

// The bytes before the first `-`, or all.
pub fn before_hyphen(word: &[u8]) -> &[u8]
    ensures { result.now ≡ before_hyphen word.now }
{
    let end = scan(|b| b != b'-', word, 0);
    &word[..end]
}

// The bytes behind the first `-`, or none.
pub fn behind_hyphen(word: &[u8]) -> &[u8]
    ensures { result.now ≡ behind_hyphen word.now }
{
    let at = scan(|b| b != b'-', word, 0);
    if at < word.len() {
        let from = at + 1;
        return &word[from..];
    }
    &word[at..]
}
