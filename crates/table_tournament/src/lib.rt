// The tournament of the ready instants in the words of a table. It gives the connection that a slot goes to, the
// next ready instant and the time to pass to a slot. It replays the matches of a leaf.
#![tactic(auto)]

pub mod next;
pub mod replay;
pub mod slot;
pub mod slot_time;
pub mod winner;
