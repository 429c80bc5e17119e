// The static library that C links: the calls of crate abr under the names of include/abr.h, and nothing else. Each
// export calls the function of abr with its name and states its clauses again.
#![tactic(auto)]

pub mod cells;
pub mod codes;
pub mod connections;
pub mod link;
pub mod path;
pub mod planning;
pub mod ports;
pub mod traces;
pub mod version;
