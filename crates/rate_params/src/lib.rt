// The parameters of an open, with their ranges, and the house set.
#![tactic(auto)]

pub mod params;
