// The slot driver's types: its state, the steps of a call's plan, the place in it.
#![tactic(auto)]

use dates::{Date, Term};
use state::Answer;

// The calls that go by a plan.
#[derive(Clone, Copy)]
pub enum Kind {
    Put,
    Patch,
    Get,
    Wipe,
}

// The commands that name a page in four bytes: 83, 50, 60.
#[derive(Clone, Copy)]
pub enum Command {
    Program,
    Erase,
    Compare,
}

// A step of a plan: a wait (D7), 32, 35, a page read (D2), a page loaded (84), a command that names a page; or the plan's end. Pages are
// pages of the part. A wait is checked if it comes after a 60: the compare bit of its last status counts.
#[derive(Clone, Copy)]
pub enum Step {
    Wait { checked: bool },
    Protection,
    Lockdown,
    Read { page: usize },
    Load { page: usize },
    Send { command: Command, page: usize },
    End,
}

// The driver's control state: the place in the plan, how many polls are left, and what was heard of the sector: whether it is listed, and
// status bit 1.
#[derive(Clone, Copy)]
pub struct Course {
    pub place: usize,
    pub left: usize,
    // None while the call goes on, then the answer that it has ended with.
    pub stage: Option<Answer>,
    pub listed: bool,
    pub guarded: bool,
}

// What a call has found for its answer at the plan's end: nothing against it; 12 (blank), 13 (the patch ends beyond the record) or 15 (the
// get is outside its term), by the slot's first page; or 16 (a page that differs from what was programmed).
#[derive(Clone, Copy)]
pub enum Verdict {
    Good,
    Blank,
    Beyond,
    Outside,
    Miscompared,
}

// What a call is told beside slot, poll limit and bytes: a patch's place, a put's term, a get's date of today. What does not concern
// the call is not looked at.
#[derive(Clone, Copy)]
pub struct Detail {
    pub place: usize,
    pub term: Term,
    pub today: Date,
}

// A call by its kind: the slot, the poll limit, and what it is told.
#[derive(Clone, Copy)]
pub struct Request {
    pub kind: Kind,
    pub slot: usize,
    pub limit: usize,
    pub detail: Detail,
}

// A recipe's term in day numbers: none, or from the first to the last day, both inside. As `Term` it says itself that there is no limit, which `None`
// would not.
#[derive(Clone, Copy)]
pub enum Period {
    Always,
    Days { first: usize, last: usize },
}

// The same as the driver goes by it, in day numbers.
#[derive(Clone, Copy)]
pub struct Aim {
    pub place: usize,
    pub period: Period,
    pub today: usize,
}

// What is met by what a call is given: 5 (size), 14 (dates).
#[derive(Clone, Copy)]
pub struct Flaws {
    pub size: bool,
    pub dates: bool,
}

// The slot driver's state: the length of the chip's array, which says the part; the slot and the poll limit; the call, and what it aims at; the
// verdict so far; and the control state.
#[derive(Clone, Copy)]
pub struct Driver {
    pub array: usize,
    pub slot: usize,
    pub limit: usize,
    pub aim: Aim,
    pub kind: Kind,
    pub verdict: Verdict,
    pub course: Course,
}
