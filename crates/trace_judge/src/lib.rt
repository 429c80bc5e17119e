// The judge of a foreign transmitter's trace (document 02, L11).
#![tactic(auto)]

pub mod cells;
pub mod judge;
pub mod rules;
