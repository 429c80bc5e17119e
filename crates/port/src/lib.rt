// An explicit-rate port. A passing backward cell is held to a rate, and that rate is the share of
// the demands (document 02, L10).
#![tactic(auto)]

pub mod er;
pub mod limit;
pub mod port;
