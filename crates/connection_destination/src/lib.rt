// The destination of a connection: the cells that it turns round, and those that it makes.
#![tactic(auto)]

pub mod make;
pub mod receive;
pub mod turned;
