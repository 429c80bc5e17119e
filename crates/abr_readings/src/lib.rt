// The calls that read everything of a connection, of a member and of the link on a lent table, and leave it. Contracts
// as in the crate engine.
#![tactic(auto)]

pub mod entry;
pub mod limits;
pub mod members;
pub mod place;
pub mod totals;
