// No code: the starred checked values of document 01, as one table and one result.
// See specs/Checked.antt and proofs/Checked.antt.
#![tactic(auto)]
