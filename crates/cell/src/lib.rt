// The cell of 53 octets: its fields, and what reading one gives. The definitions and their
// laws are in specs/ and proofs/; the crates cell_write, cell_read and cell_turn have the code.
#![tactic(auto)]

pub mod fields;
pub mod name;
pub mod octets;
pub mod read;
