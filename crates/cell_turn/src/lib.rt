// A received forward cell turned round.
#![tactic(auto)]

pub mod turn;
