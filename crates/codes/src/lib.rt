// Answers as C gets them: each kind of answer as a struct of numbers, from which it can be read back.
#![tactic(auto)]

pub mod answer;
pub mod cut;
