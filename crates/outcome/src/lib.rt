// What a request comes to, and what answering a line leaves.
#![tactic(auto)]

use message::say::{Class, Fault};
use state::Bare;

#[derive(Clone, Copy)]
pub enum Outcome {
    // An error: nothing is written yet, and nothing is altered.
    Denied(Class),
    // The parameter that is asked for can't be read, since a time: an error too.
    Unreadable(Fault, u64),
    // Answered with so many bytes; nothing else is altered.
    Sent(usize),
    // The client's active modules are those of a mask; so many bytes are written.
    Active(u16, usize),
    // After a status a parameter has a stored value of so many bytes; so many bytes are written.
    Stored(Option<(usize, usize)>, usize, usize, usize),
}

// The next state, without the lines, which an answer leaves as they are, and how many bytes are written.
#[derive(Clone, Copy)]
pub struct Answered {
    pub state: Bare,
    pub written: usize,
}

// The same of a line, with the steps of its search.
#[derive(Clone, Copy)]
pub struct Replied {
    pub answered: Answered,
    pub steps: usize,
}
