// The directory of names and the bits of the entries in use: a name's entry, and the lowest free one.
#![tactic(auto)]

pub mod directory;
pub mod filing;
pub mod find;
pub mod used;
