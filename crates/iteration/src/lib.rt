// Iteration, in both modes: a run over the entries from the start's chunk on. Each entry is tested as it comes.
#![tactic(auto)]

pub mod listing;
