// Comparisons of some calls and other numbers, computed from the definitions: in specs/ the numbers, in proofs/ the
// computation, no code.
#![tactic(auto)]
