// What document 01 speaks of: sizes, answers, refusals, plans, ranges. Types and numbers alone; specs/ says what they mean.
#![tactic(auto)]

pub mod answer;
pub mod plan;
pub mod range;
pub mod refusal;
pub mod sizes;
