// Lines of the protocol: a client's line taken apart, and what the node says.
#![tactic(auto)]

pub mod line;
pub mod say;
