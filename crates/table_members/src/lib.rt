// The members of paths in the words of a table. (Document 02, L13.)
#![tactic(auto)]

pub mod change;
pub mod find;
pub mod turn;
