// The engine as documents 01 and 02 describe it: the state, the calls and lists of calls in specs/, and what holds
// of them in proofs/. The only code is the types of what the calls return.
#![tactic(auto)]

pub mod answers;
pub mod readings;
