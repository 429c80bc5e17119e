// The trace of a transmitter: numbers in groups of seven bits (document 02, L11).
#![tactic(auto)]

pub mod number;
pub mod reader;
