// The state that a caller keeps between calls and hands in and out by value. Every pattern of bits is a state; which are fit for a
// table and a values area is judged by each call (number 9).
#![tactic(auto)]

pub mod bits;
pub mod client;
pub mod count;
pub mod setting;

use counter::Counts;
use limits::{ACCESSIBLES, CLIENTS, LINE};

// Of each of the eight clients: whether it is open and inside an overlong line (0: no, anything else: yes), a bit for each active module
// (the lowest for the first), the length of its unfinished line, and the lines, 1,024 bytes for each client.
#[repr(C)]
#[derive(Clone, Copy, PartialEq, Eq)]
pub struct Clients {
    pub open: [u8; CLIENTS],
    pub overlong: [u8; CLIENTS],
    pub active: [u16; CLIENTS],
    pub length: [u16; CLIENTS],
    pub lines: [u8; CLIENTS * LINE],
}

// The clients without their lines, which are most of a state.
#[derive(Clone, Copy)]
pub struct Brief {
    pub open: [u8; CLIENTS],
    pub overlong: [u8; CLIENTS],
    pub active: [u16; CLIENTS],
    pub length: [u16; CLIENTS],
}

// Of each parameter: the length of its stored value (0: never set), the class of the error in the value's place (0: none), and the time of the
// value or of the error.
#[repr(C)]
#[derive(Clone, Copy, PartialEq, Eq)]
pub struct Settings {
    pub length: [u16; ACCESSIBLES],
    pub error: [u8; ACCESSIBLES],
    pub time: [u64; ACCESSIBLES],
}

// Counts of each of the eight clients, of one that is closed too.
#[repr(C)]
#[derive(Clone, Copy, PartialEq, Eq)]
pub struct State {
    pub clients: Clients,
    pub settings: Settings,
    pub counts: [Counts; CLIENTS],
}

// A state without its lines. The code below a call is handed this one, by value; what judges lines or joins bytes to them is lent them. A state is
// large, and each copy of one is on the stack.
#[derive(Clone, Copy)]
pub struct Bare {
    pub clients: Brief,
    pub settings: Settings,
    pub counts: [Counts; CLIENTS],
}
