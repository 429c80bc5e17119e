// A connection stored in an entry of a table, with its ready key.
#![tactic(auto)]

pub mod key;
pub mod store;
pub mod winner;
