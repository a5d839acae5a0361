// Words of a line, which spaces, tabs and CRs separate.
ghost use Rattle.std.specs.Prelude.{◌≡◌, ◌≤◌, min, length};
ghost use Rattle.slices.specs.Lists.{same};
ghost use Rattle.text.specs.Lists.{scan};
ghost use Rattle.text.specs.Words.{is_blank, not_blank};

use crate::scans::{is_blank, scan};

// The first index from `at` on that holds no blank, or the length.
pub fn skip_blanks(line: &[u8], at: usize) -> usize
    ensures { (result ≤ length line.now) × (at ≤ length line.now → at ≤ result) × (min at (length line.now) ≤ result) × (result ≡ scan is_blank line.now at) }
{
    scan(is_blank, line, at)
}

// The first index from `at` on that holds a blank, or the length.
pub fn word_end(line: &[u8], at: usize) -> usize
    ensures { (result ≤ length line.now) × (at ≤ length line.now → at ≤ result) × (min at (length line.now) ≤ result) × (result ≡ scan not_blank line.now at) }
{
    scan(|b| !is_blank(b), line, at)
}

// Whether the two agree, in length and in every byte.
pub fn is_same(a: &[u8], b: &[u8]) -> bool
    ensures { result ≡ same a.now b.now }
{
    a == b
}
