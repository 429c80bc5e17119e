// A payload's 48 octets in six words.
#![tactic(auto)]

pub mod payload;
