// The range test, in both modes: a run over the entries from the low end's chunk on. Each entry is tested as it comes.
#![tactic(auto)]

pub mod range;
