// Lists of calls on paths and members, computed from the definitions: in specs/ what comes out, in proofs/ the
// computation, no code. (Document 02, L13.)
#![tactic(auto)]
