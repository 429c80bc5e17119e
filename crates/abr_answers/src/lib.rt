// The structs that the exported calls return, and each answer of the engine as one of them.
#![tactic(auto)]

pub mod calls;
pub mod cells;
pub mod codes;
pub mod details;
pub mod planning;
pub mod shares;
pub mod status;
pub mod traces;
