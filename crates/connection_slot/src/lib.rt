// When a connection may send, and what kind of cell it then sends.
#![tactic(auto)]

pub mod kind;
pub mod ready;
