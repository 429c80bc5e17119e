// What a connection is served, whatever the list of calls: definitions in specs/, theorems in proofs/, no code.
#![tactic(auto)]
