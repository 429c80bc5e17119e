// One connection by value: its parts, and what its source and its destination share. The definitions and laws of what
// it sends and receives are in specs/ and proofs/; the crates connection_source, connection_destination and
// connection_slot have the code.
#![tactic(auto)]

pub mod interval;
pub mod kind;
pub mod pace;
pub mod parts;
