// A call under way and what it hands back, as types; what the calls' code promises, and why turns of the loop are steps of the run that
// defines the call. No code.
#![tactic(auto)]

use slots::Driver;
use state::Answer;

// What a call hands back: its answer, how many frames it sent and how many of them were polls, and of a get the recipe's length.
#[derive(Clone, Copy)]
pub struct Done {
    pub answer: Answer,
    pub frames: usize,
    pub polls: usize,
    pub count: usize,
}

// A call under way: the driver, the frames sent and how many of them were polls, and whether a cut has ended it.
#[derive(Clone, Copy)]
pub struct Session {
    pub driver: Driver,
    pub frames: usize,
    pub polls: usize,
    pub cut: bool,
}
