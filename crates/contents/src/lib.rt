// What a step of the program `outline` is given: the bytes of a line's words, and the junk of a seed. Every function named here takes any input.
#![tactic(auto)]

ghost use Rattle.std.specs.Prelude.{◌≡◌, ◌*◌, ◌≤◌, length, take};
ghost use Rattle.io.specs.Counts.{IsPrefixLen};
ghost use Rattle.text.specs.Hexadecimal.{bytes_of};
ghost use Rattle.words.specs.Words.{part_of};
ghost use Rattle.words.specs.Bounds.{Within};
ghost use Rattle.contents.specs.Junk.{junk_byte, junk_of};

use words::Span;

// Byte `i` of the junk with this seed.
fn junk_byte(seed: usize, i: usize) -> u8
    ensures { result ≡ junk_byte seed i }
{
    ((seed % 256 * 7 + i % 256 * 13 + i / 256 % 256 * 31) % 256) as u8
}

// The junk with this seed, from its first byte on.
pub fn fill_junk(part: &mut [u8], seed: usize)
    ensures { part.new ≡ junk_of seed (length part.old) }
{
    for (i, x) in part.iter_mut().enumerate() {
        *x = junk_byte(seed, i);
    }
}

// The bytes of a word of hexadecimal digits, which is a part of the line, at the start of `out`; how many.
pub fn bytes_of(line: &[u8], word: Span, out: &mut [u8]) -> usize
    ensures { IsPrefixLen result out.new × (Within (length line.now) word → length line.now ≤ 2 * length out.old → take result out.new ≡ bytes_of (part_of line.now word)) }
{
    let start = word.start.min(line.len());
    let end = word.end.min(line.len());
    if start <= end {
        hexadecimal::unhex(&line[start..end], out)
    } else {
        0
    }
}
