// The calls on the members of paths on a lent table (document 02, L13). Contracts as in the crate engine.
#![tactic(auto)]

pub mod add;
pub mod member;
pub mod offer;
pub mod remove;
