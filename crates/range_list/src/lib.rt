// The range list: each mark by a range test of a set, or by a partition of a plan; over records, and over their ends as slices of numbers.
#![tactic(auto)]

pub mod ends;
pub mod list;
mod mark;
