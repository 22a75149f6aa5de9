// The calls on a set: set-up, membership.
#![tactic(auto)]

mod chunk;
pub mod read;
pub mod setup;
