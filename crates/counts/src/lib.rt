// Counts of members and of chunks, in both modes: each a run over the entries.
#![tactic(auto)]

pub mod count;
mod parts;
