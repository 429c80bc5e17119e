// What the RM cells of every list of calls carry: definitions in specs/, theorems in proofs/, no code.
#![tactic(auto)]
