// What every call of a single event after a start judges, and what a list judges; a reading where all that is lent is good; and the readings of a list,
// one after another.
#![tactic(auto)]

pub mod judge;
pub mod list;
pub mod reading;
