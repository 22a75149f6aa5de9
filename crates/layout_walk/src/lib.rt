// The walk over the table, and the runs of it that are searched and counted: owners, zeros.
#![tactic(auto)]

pub mod owners;
pub mod walk;
pub mod zeros;
