// The program's input goes into a set, part by part.
#![tactic(auto)]

pub mod input;
