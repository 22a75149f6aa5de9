// The intervals of a plan, and how many partitions it has.
#![tactic(auto)]

pub mod interval;
pub mod round;
