// The order of the refusals in whole lists of exported calls, by what a caller knows. Definitions are in specs/,
// theorems in proofs/. There is no code.
#![tactic(auto)]
