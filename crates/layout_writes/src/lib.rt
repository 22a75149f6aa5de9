// What is written to the table, entry by entry, and all that set-up writes.
#![tactic(auto)]

pub mod setup;
pub mod write;
