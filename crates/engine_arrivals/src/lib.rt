// The call for a received cell on a lent table. Its contract is as in the crate engine.
#![tactic(auto)]

pub mod owner;
pub mod receive;
