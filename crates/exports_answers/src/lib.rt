// What answers and readings say beyond the documents' demands, in whole lists of exported calls: leaves, received and
// sent cells, and the status of a connection. Definitions are in specs/, theorems in proofs/. There is no code.
#![tactic(auto)]
