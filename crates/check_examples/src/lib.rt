// Lists of calls, computed from the definitions: in specs/ what comes out, in proofs/ the computation, no code.
#![tactic(auto)]
