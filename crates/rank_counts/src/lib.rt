// The counts that ranking writes: members before each block of a page, and before each entry.
#![tactic(auto)]

pub mod blocks;
pub mod prefixes;
