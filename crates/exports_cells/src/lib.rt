// What exported calls take in and write, in whole lists of calls. Definitions are in specs/, theorems in proofs/. There
// is no code.
#![tactic(auto)]
