// Reading a cell: its refusals in order, and the fields of an RM cell.
#![tactic(auto)]

pub mod fields;
pub mod read;
