// Scripts of calls: the operations that a script is made of, what they change in a kept state, and what is written of each.
#![tactic(auto)]

pub mod operation;
pub mod poke;
pub mod say;
