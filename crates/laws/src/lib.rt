// Facts about lists and blocks that belong to no single crate, in specs/ and proofs/. Also the refusals.
#![tactic(auto)]

pub mod refusals;
