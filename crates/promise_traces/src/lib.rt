// The traces of the engine's own cells, and that the judge of foreign transmitters passes them. Definitions are in
// specs/, theorems in proofs/. There is no code.
#![tactic(auto)]
