// The calls of a node, the filling of an index, and the value that a parameter shows. Each judges all that it is lent and answers a number, 0 for
// accepted; what is refused alters nothing.
#![tactic(auto)]

pub mod clients;
pub mod filling;
pub mod list;
pub mod pieces;
pub mod readings;
pub mod start;
pub mod unreadable;
pub mod value;
pub mod version;
