// The loop of a source and an explicit-rate port: definitions in specs/, theorems in proofs/, no code.
#![tactic(auto)]
