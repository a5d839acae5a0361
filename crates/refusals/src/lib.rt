// The tests of a call before any frame: 3 to 7 and 14, and raw's 2, in the order of their numbers, 14 behind 5. Done where none is met.
// Internal to this repository: a caller here meets each `requires`; no entry point is in this crate.
#![tactic(auto)]

ghost use Rattle.std.specs.Prelude.{◌≡◌, Some};
ghost use Rattle.geometry.specs.Parts.{Sized, part_of};
ghost use Rattle.slots.specs.Refusals.{flaws_in, bad_script, late_refusal, call_refusal, raw_refusal};
ghost use Rattle.slots.specs.Lists.{asking};
ghost use Rattle.refusals.specs.Largest.{largest_in};

use geometry::Geometry;
use slots::Request;
use state::Answer;

// The largest byte of a script; 0 of none.
fn largest(script: &[u8]) -> u8
    ensures { result ≡ largest_in script.now }
{
    let mut most = 0;
    for &byte in script {
        most = most.max(byte);
    }
    most
}

// 7: a byte that is none of 0, 1 and 2; or a cut, and junk of a wrong length.
#[tactic(auto, using(crate::proofs::Scripts::fine_below, crate::proofs::Scripts::bad_above, crate::proofs::Scripts::cut_two))]
fn bad_script(g: Geometry, array: usize, script: &[u8], junk: usize) -> bool
    requires { Sized g array }
    ensures { result ≡ bad_script g array script.now junk }
{
    match largest(script) {
        0 | 1 => false,
        2 => junk != 2 * g.size + array,
        _ => true,
    }
}

// 6 and 7: a log of fewer bytes than the least, and the script. The lengths are those of the array, the log and the junk.
#[tactic(auto, unfolding(slots::specs::Refusals::late_refusal))]
fn late_refusal(
    g: Geometry,
    array: usize,
    log: usize,
    least: usize,
    script: &[u8],
    junk: usize,
) -> Answer
    requires { Sized g array }
    ensures { result ≡ late_refusal g array log least script.now junk }
{
    if log < least {
        return Answer::Log;
    }
    if bad_script(g, array, script, junk) {
        return Answer::Script;
    }
    Answer::Done
}

// Put, patch, get and wipe. `n` is the length of recipe or patch, `lent` that of the get buffer; then those of the log and the junk.
pub fn call_refusal(
    g: Geometry,
    array: usize,
    r: Request,
    n: usize,
    lent: usize,
    log: usize,
    script: &[u8],
    junk: usize,
) -> Answer
    requires { (Sized g array) × (part_of array ≡ Some g) }
    ensures { result ≡ call_refusal g array (asking r.kind r.slot r.limit) (flaws_in r.kind g r.detail n lent) log script.now junk }
{
    match starts::refusal(array, r, n, lent) {
        Answer::Done => {
            let least = 6 * steps::bound_of(r.kind, r.limit);
            late_refusal(g, array, log, least, script, junk)
        }
        early => early,
    }
}

// Raw.
#[tactic(auto, unfolding(slots::specs::Refusals::raw_refusal))]
pub fn raw_refusal(
    g: Geometry,
    array: usize,
    frame: &[u8],
    reply: usize,
    log: usize,
    script: &[u8],
    junk: usize,
) -> Answer
    requires { Sized g array }
    ensures { result ≡ raw_refusal g array frame.now reply log script.now junk }
{
    if !frames::is_framed(frame.len(), reply) {
        return Answer::Frame;
    }
    late_refusal(g, array, log, 6, script, junk)
}
