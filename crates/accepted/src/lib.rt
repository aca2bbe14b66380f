// What an accepted piece, an accepted reading and an accepted report of an unreadable parameter do.
#![tactic(auto)]

mod feed;
pub mod pieces;
pub mod readings;
pub mod unreadable;
