// The room that there is for what a step lends.
ghost use Rattle.std.specs.Prelude.{◌≡◌, ◌≤◌};
ghost use Rattle.lengths.specs.Lengths.{lent_by};

// For a log: six bytes for each of the most frames that a call sends.
pub const LOG_ROOM: usize = 102204;
// For a get buffer or a reply.
pub const OUT_ROOM: usize = 65536;
// For junk.
pub const JUNK_ROOM: usize = 1114112;

// The lengths of junk, log, and get buffer or reply.
#[derive(Clone, Copy)]
pub struct Lengths {
    pub junk: usize,
    pub log: usize,
    pub out: usize,
}

// A length as given, else as needed; at most `room`.
pub fn lent(given: Option<usize>, needed: usize, room: usize) -> usize
    ensures { (result ≡ lent_by given needed room) × (result ≤ room) }
{
    given.unwrap_or(needed).min(room)
}
