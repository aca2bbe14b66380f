// An index beside the table: filling it from a table, and seeking an accessible of the table by it.
#![tactic(auto)]

pub mod fill;
pub mod locate;
pub mod look;
pub mod walk;
