// Leaves over slices of bytes: fill, copy, AND, compare, and reads and writes that wrap. Copies go in runs.
// Internal to this repository: a caller here meets each `requires`; no entry point is in this crate.
#![tactic(auto)]

ghost use Rattle.std.specs.Prelude.{◌≡◌, ℕ, ◌+◌, ◌≤◌, ◌<◌, not, length, get_or, replicate};
ghost use Rattle.slices.specs.Lists.{and_over, same, ring_read, ring_write, splice};
ghost use Rattle.slices.specs.Words.{word_at, word_bytes};

// Every byte becomes `value`. A single one is stored as such: of `fill` the compiler makes a call.
pub fn fill(part: &mut [u8], value: u8)
    ensures { part.new ≡ replicate (length part.old) value }
{
    if part.len() == 1 {
        part[0] = value;
        return;
    }
    part.fill(value);
}

// `part` becomes `source`, which is as long. Byte by byte, of which the compiler makes vector instructions: for `copy_from_slice` it calls the C library's
// `memmove`, which no program that takes the archive had to bring before.
pub fn copy(part: &mut [u8], source: &[u8])
    requires { length part.old ≡ length source.now }
    ensures { part.new ≡ source.now }
{
    for (i, x) in part.iter_mut().enumerate() {
        *x = source[i];
    }
}

// `part` becomes `part AND mask`, which is as long. By an index: of what is written through a `zip` of `iter_mut` the check knows nothing.
pub fn and_into(part: &mut [u8], mask: &[u8])
    requires { length part.old ≡ length mask.now }
    ensures { part.new ≡ and_over part.old mask.now }
{
    for (i, x) in part.iter_mut().enumerate() {
        *x &= mask[i];
    }
}

// `piece` is stored from index `at` on; the index behind it.
pub fn put(out: &mut [u8], at: usize, piece: &[u8]) -> usize
    requires { at + length piece.now ≤ length out.old }
    ensures end { result ≡ at + length piece.now }
    ensures laid { out.new ≡ splice at piece.now out.old }
{
    let behind = at + piece.len();
    copy(&mut out[at..behind], piece);
    behind
}

// The byte at an index, or `other` where there is none.
pub fn byte_or(bytes: &[u8], i: usize, other: u8) -> u8
    ensures { result ≡ get_or bytes.now i other }
{
    bytes.get(i).copied().unwrap_or(other)
}

// Whether the two differ, in length or in a byte. Every byte is looked at, whatever the others are: quicker, and the time tells nothing of them.
// So no `a != b`, which ends at the first that differs.
pub fn differs(a: &[u8], b: &[u8]) -> bool
    ensures { result ≡ not (same a.now b.now) }
{
    if a.len() != b.len() {
        return true;
    }
    let mut found = false;
    for (x, y) in a.iter().zip(b) {
        if *x != *y {
            found = true;
        }
    }
    found
}

// `part` is filled from the first `size` bytes of `ring`, from `start` on, wrapping. A turn copies a run, no single byte; of what is written through
// `chunks_mut` the check knows nothing.
pub fn ring_read(part: &mut [u8], ring: &[u8], size: usize, start: usize)
    requires { (start < size) × (size ≤ length ring.now) }
    ensures { part.new ≡ ring_read (length part.old) size start ring.now }
{
    let mut done = 0;
    let mut from = start;
    while done < part.len() {
        let n = (size - from).min(part.len() - done);
        let next = done + n;
        let end = from + n;
        copy(&mut part[done..next], &ring[from..end]);
        done = next;
        from = 0;
    }
}

// `bytes` are stored into the first `size` bytes of `ring`, from `start` on, wrapping.
pub fn ring_write(ring: &mut [u8], size: usize, start: usize, bytes: &[u8])
    requires { (start < size) × (size ≤ length ring.old) }
    ensures { ring.new ≡ ring_write size start bytes.now ring.old }
{
    let mut done = 0;
    let mut at = start;
    while done < bytes.len() {
        let n = (size - at).min(bytes.len() - done);
        let next = done + n;
        let end = at + n;
        copy(&mut ring[at..end], &bytes[done..next]);
        done = next;
        at = 0;
    }
}

// The number that eight bytes from index `at` on make, first byte highest.
pub fn word_at(bytes: &[u8], at: usize) -> u64
    requires { at + 8 ≤ length bytes.now }
    ensures { result ≡ word_at bytes.now at }
{
    let mut word = [0u8; 8];
    let end = at + 8;
    word.copy_from_slice(&bytes[at..end]);
    u64::from_be_bytes(word)
}

// The eight bytes of `word` stored from index `at` on.
pub fn put_word(bytes: &mut [u8], at: usize, word: u64)
    requires { at + 8 ≤ length bytes.old }
    ensures { bytes.new ≡ splice at (word_bytes word) bytes.old }
{
    let end = at + 8;
    bytes[at..end].copy_from_slice(&word.to_be_bytes());
}
