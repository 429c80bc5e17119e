// Rates: their 16-bit codes, and the gap between two cells.
#![tactic(auto)]

pub mod canonical;
pub mod code;
pub mod gap;
pub mod units;
