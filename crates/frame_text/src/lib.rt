// The printed text of a frame. The function named here takes any input.
#![tactic(auto)]

ghost use Rattle.std.specs.Prelude.{◌≡◌, [], ◌∷◌, ◌+◌, ◌*◌, ◌/◌, ◌≤◌, ◌<◌, length, get_or};
ghost use Rattle.slices.specs.Lists.{over, splice};
ghost use Rattle.text.specs.Hexadecimal.{digit_of};
ghost use Rattle.frame_text.specs.Lines.{digit_worth, decimal_of, spaced, frame_length, line_text, Counts};

// The text of a frame at the start of `out`, and its length, from the six bytes that the log keeps of the frame.
pub fn frame_line(line: &[u8], out: &mut [u8; 20]) -> usize
    ensures { (result ≤ 17) × Counts result out.new × (result ≡ length (line_text line.now)) × (out.new ≡ over (line_text line.now) out.old) }
{
    let n = frame_length(line);
    let k = put_decimal(n, out);
    let a = line.len().min(2);
    let e = line.len().min(2 + n.min(4));
    put_pairs(&line[a..e], out, k)
}

// The length of a frame, from the first two bytes, the higher first.
#[tactic(auto, unfolding(crate::specs::Lines::frame_length))]
fn frame_length(line: &[u8]) -> usize
    ensures { (result ≡ frame_length line.now) × (result < 65536) }
{
    usize::from(slices::byte_or(line, 0, 0)) * 256 + usize::from(slices::byte_or(line, 1, 0))
}

// A number below 65,536 in decimal.
fn put_decimal(n: usize, out: &mut [u8]) -> usize
    requires { 5 ≤ length out.old }
    ensures { (result ≤ 5) × (result ≡ length (decimal_of n)) × (out.new ≡ splice 0 (decimal_of n) out.old) }
{
    let a = put_digit(n, 10000, out, 0);
    let b = put_digit(n, 1000, out, a);
    let c = put_digit(n, 100, out, b);
    let d = put_digit(n, 10, out, c);
    out[d] = b'0' + (n % 10) as u8;
    d + 1
}

// The digit of `n` that is worth `worth`, or nothing where `n` is below that; the place behind it.
fn put_digit(n: usize, worth: usize, out: &mut [u8], at: usize) -> usize
    requires { (0 < worth) × (at < length out.old) }
    ensures { (result ≤ at + 1) × (result ≡ at + length (digit_worth n worth)) × (out.new ≡ splice at (digit_worth n worth) out.old) }
{
    if n < worth {
        return at;
    }
    out[at] = b'0' + (n / worth % 10) as u8;
    at + 1
}

// A space and two digits for each byte, from index `at` on; the place behind them.
fn put_pairs(bytes: &[u8], out: &mut [u8], at: usize) -> usize
    requires { at + length bytes.now * 3 ≤ length out.old }
    ensures { (result ≡ at + length bytes.now * 3) × (out.new ≡ splice at (spaced bytes.now) out.old) }
{
    let mut next = at;
    for b in bytes {
        next = put_pair(*b, out, next);
    }
    next
}

fn put_pair(b: u8, out: &mut [u8], at: usize) -> usize
    requires { at + 3 ≤ length out.old }
    ensures { (result ≡ at + 3) × (out.new ≡ splice at (32 ∷ digit_of (b / 16) ∷ digit_of b ∷ []) out.old) }
{
    let digits = [b' ', hexadecimal::digit(b / 16), hexadecimal::digit(b)];
    slices::put(out, at, &digits)
}
