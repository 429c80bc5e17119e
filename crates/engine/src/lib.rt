// The engine's calls on a lent table. Those that write or read a cell are in engine_slots and engine_arrivals, those
// on members of paths in engine_paths. Each has no requires. Its ensures is the equation with the definition of its
// step.
#![tactic(auto)]

pub mod acr;
pub mod close;
pub mod contract;
pub mod level;
pub mod make;
pub mod offer;
pub mod open;
pub mod timed;
