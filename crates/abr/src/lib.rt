// The calls of the C interface. Each is one call of the engine, of the cell or of the rate. It returns the documents'
// number, or a struct with that number first and with zeros beside a refusal. include/abr.h is the header, and crate
// abr_c exports them.
#![tactic(auto)]

pub mod cells;
pub mod codes;
pub mod connections;
pub mod link;
pub mod path;
pub mod planning;
pub mod ports;
pub mod traces;
pub mod version;
