// Writing a cell: RM cells from their fields, and turned cells.
#![tactic(auto)]

pub mod put;
pub mod turned;
pub mod with_crc;
pub mod write;
