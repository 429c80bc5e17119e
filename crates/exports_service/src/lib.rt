// Which connection, and which member of a path, is served when, in whole lists of exported calls. Definitions are in
// specs/, theorems in proofs/. There is no code.
#![tactic(auto)]
