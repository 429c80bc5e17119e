// What holds of whole lists of calls: definitions in specs/, theorems in proofs/, no code.
#![tactic(auto)]
