// An entry's connection out of its record, and its record's words again.
#![tactic(auto)]

pub mod destination;
pub mod load;
pub mod record;
pub mod source;
