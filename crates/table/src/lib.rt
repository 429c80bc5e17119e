// The words of a table in the lent memory, with their laws; the crates table_column to table_store have the code.
#![tactic(auto)]

pub mod layout;
