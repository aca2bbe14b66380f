// What the calls of a node answer. What each promises, and what a run of calls that kept their promises is, stands in specs/.
#![tactic(auto)]

use state::{Bare, State};

// A call's number (0: accepted), how many bytes of a piece it used, how many bytes of the outbox it wrote, how many steps its search took, and the
// next state.
#[repr(C)]
#[derive(Clone, Copy)]
pub struct Done {
    pub number: u8,
    pub used: usize,
    pub written: usize,
    pub steps: usize,
    pub state: State,
}

// What the code of a call answers with, without the state's lines: those stay with the call, which lends
// them where they are looked at or written.
#[derive(Clone, Copy)]
pub struct BareDone {
    pub number: u8,
    pub used: usize,
    pub written: usize,
    pub steps: usize,
    pub state: Bare,
}

// A list's number (0: all its readings were taken), how many of them were taken, how many bytes of the outbox they wrote in all, how many steps a
// search took (0: it seeks nothing), and the next state.
#[repr(C)]
#[derive(Clone, Copy)]
pub struct Listed {
    pub number: u8,
    pub taken: usize,
    pub written: usize,
    pub steps: usize,
    pub state: State,
}

// A call's number (0: accepted), whether the value shown is a stored one (0: it isn't), the class of the error in its place (0: none), where its
// part of the values area or of the table begins, how many bytes it has, and the time of the value or of the error.
#[repr(C)]
#[derive(Clone, Copy)]
pub struct Shown {
    pub number: u8,
    pub stored: u8,
    pub error: u8,
    pub from: usize,
    pub size: usize,
    pub time: u64,
}
