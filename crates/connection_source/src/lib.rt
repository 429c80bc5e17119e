// The source of a connection: the data that waits, the forward cells that it sends, and what a backward cell makes of
// it.
#![tactic(auto)]

pub mod backward;
pub mod feedback;
pub mod forward;
pub mod out_of_rate;
pub mod queue;
