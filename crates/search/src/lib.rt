// Finding the modules, parameters and commands of a table that can be read.
#![tactic(auto)]

pub mod cursor;
pub mod find;
pub mod locate;
