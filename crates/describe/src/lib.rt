// The structure report of a table, in code: its length without writing it, the report written into a lent buffer, and the number that
// a table is answered with.
#![tactic(auto)]

pub mod judge;
pub mod structure;
