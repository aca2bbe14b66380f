// The table: reading its records and judging it.
#![tactic(auto)]

pub mod edition;
pub mod judge;
pub mod layout;
