// The rate record and the four moves of its allowed rate.
#![tactic(auto)]

pub mod moves;
