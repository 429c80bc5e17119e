// The members of paths (document 02, L13): definitions in specs/, laws in proofs/, and for the code two VCIs and the
// name of a path.
#![tactic(auto)]

pub mod path;
