// The plan: boundaries of a ranked set.
#![tactic(auto)]

pub mod planning;
mod search;
