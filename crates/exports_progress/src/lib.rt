// Each connection makes progress in every list of exported calls. Definitions are in specs/, theorems in proofs/. There
// is no code.
#![tactic(auto)]
