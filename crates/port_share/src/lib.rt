// The share of a port: the greatest whole number to which the demanded rates can be cut so that they fit its
// capacity (document 02, L10).
#![tactic(auto)]

pub mod pass;
pub mod share;
