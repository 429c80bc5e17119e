// A column of words in descending order, the unused ones 0 and behind the others: found by halving, and kept in order.
#![tactic(auto)]

pub mod column;
