// The calls on a lent table that write a cell: the slot, and an out-of-rate forward cell.
// Contracts are as in the crate engine.
#![tactic(auto)]

pub mod data;
pub mod out_of_rate;
pub mod send;
pub mod slot;
