// Rates as doubles, in cells per second, for planning tools (document 02, L8).
#![tactic(auto)]

pub mod export;
pub mod import;
