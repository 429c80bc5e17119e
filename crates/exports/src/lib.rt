// What holds of whole lists of exported calls, as C sees them: definitions in specs/, theorems in proofs/, no code.
#![tactic(auto)]
