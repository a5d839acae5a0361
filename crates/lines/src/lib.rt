// The lines that the program `outline` prints, each made at the start of a buffer of 128 bytes.
// Internal to this repository: a caller here meets each `requires`; no entry point is in this crate.
#![tactic(auto)]

ghost use Rattle.std.specs.Prelude.{◌≡◌, ◌+◌, ◌/◌, ◌≤◌, ◌<◌, min, length};
ghost use Rattle.io.specs.Counts.{IsPrefixLen};
ghost use Rattle.text.specs.Hexadecimal.{digit_of};
ghost use Rattle.lines.specs.Texts.{Stands, decimal, word_text, count_text, check_text, frame_text, answer_text, totals_text, sum_text, fault_text};

// How many of `part`'s bytes the first `n` are: all of them, where it has fewer.
pub fn count(n: usize, part: &[u8]) -> usize
    ensures { IsPrefixLen result part.now × (result ≡ min n (length part.now)) }
{
    n.min(part.len())
}

// `piece` is put at index `at`; the index behind it.
pub fn put(out: &mut [u8], at: usize, piece: &[u8]) -> usize
    requires { at + length piece.now ≤ length out.old }
    ensures { Stands at piece.now result out.old out.new }
{
    slices::put(out, at, piece)
}

fn put_decimal(out: &mut [u8], at: usize, n: u64) -> usize
    requires { at + 20 ≤ length out.old }
    ensures { Stands at (decimal n) result out.old out.new × (result ≤ at + 20) }
{
    let mut digits = [0u8; 20];
    let k = io::decimal(n, &mut digits);
    put(out, at, &digits[..k])
}

// The hexadecimal digit of `n` that is worth `worth`.
fn digit_at(n: u32, worth: u32) -> u8
    requires { 0 < worth }
    ensures { result ≡ digit_of (n / worth) }
{
    hexadecimal::digit((n / worth % 16) as u8)
}

// Eight hexadecimal digits, listed as `word_text` lists them.
fn put_word(out: &mut [u8], at: usize, n: u32) -> usize
    requires { at + 8 ≤ length out.old }
    ensures { Stands at (word_text n) result out.old out.new }
{
    let digits = [
        digit_at(n, 0x1000_0000),
        digit_at(n, 0x100_0000),
        digit_at(n, 0x10_0000),
        digit_at(n, 0x1_0000),
        digit_at(n, 0x1000),
        digit_at(n, 0x100),
        digit_at(n, 0x10),
        digit_at(n, 1),
    ];
    put(out, at, &digits)
}

// A name, and a number in decimal.
fn put_count(out: &mut [u8], at: usize, name: &[u8], n: u64) -> usize
    requires { at + length name.now + 20 ≤ length out.old }
    ensures { Stands at (count_text name.now n) result out.old out.new × (result ≤ at + length name.now + 20) }
{
    let a = put(out, at, name);
    put_decimal(out, a, n)
}

// A name, and a number in hexadecimal. Not one function with `put_count`: only the two calls could be shared.
fn put_check(out: &mut [u8], at: usize, name: &[u8], n: u32) -> usize
    requires { at + length name.now + 8 ≤ length out.old }
    ensures { Stands at (check_text name.now n) result out.old out.new × (result ≡ at + length name.now + 8) }
{
    let a = put(out, at, name);
    put_word(out, a, n)
}

pub fn write_frame(out: &mut [u8; 128], entry: &[u8]) -> usize
    ensures { Stands 0 (frame_text entry.now) result out.old out.new × IsPrefixLen result out.new }
{
    let mut frame = [0u8; 20];
    let k = frame_text::frame_line(entry, &mut frame);
    let a = put(out, 0, &frame[..k]);
    put(out, a, b"\n")
}

pub fn write_answer(out: &mut [u8; 128], answer: u8) -> usize
    ensures { Stands 0 (answer_text answer) result out.old out.new × IsPrefixLen result out.new }
{
    let a = put_count(out, 0, b"answer ", u64::from(answer));
    put(out, a, b"\n")
}

pub fn write_totals(out: &mut [u8; 128], frames: u64, polls: u64, answer: u8) -> usize
    ensures { Stands 0 (totals_text frames polls answer) result out.old out.new × IsPrefixLen result out.new }
{
    let a = put_count(out, 0, b"frames ", frames);
    let b = put_count(out, a, b" polls ", polls);
    let c = put_count(out, b, b" answer ", u64::from(answer));
    put(out, c, b"\n")
}

pub fn write_sum(out: &mut [u8; 128], state: u32, log: u32, given: u32, n: u64) -> usize
    ensures { Stands 0 (sum_text state log given n) result out.old out.new × IsPrefixLen result out.new }
{
    let a = put_check(out, 0, b"sum ", state);
    let b = put_check(out, a, b" log ", log);
    let c = put_check(out, b, b" out ", given);
    let d = put_count(out, c, b" n ", n);
    put(out, d, b"\n")
}

pub fn write_fault(out: &mut [u8; 128], number: u64, message: &[u8]) -> usize
    requires { length message.now ≤ 64 }
    ensures { Stands 0 (fault_text number message.now) result out.old out.new × IsPrefixLen result out.new }
{
    let a = put_count(out, 0, b"line ", number);
    let b = put(out, a, b": ");
    let c = put(out, b, message);
    put(out, c, b"\n")
}
