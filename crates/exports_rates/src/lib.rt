// What exported calls do to the allowed rates, in whole lists of calls. Definitions are in specs/, theorems
// in proofs/. There is no code.
#![tactic(auto)]
