// The library for C and Rust: an entry for each call, on numbers and slices. include/brothpillow.h declares them.
#![tactic(auto)]

pub mod change;
pub mod list;
pub mod number;
pub mod partition;
pub mod ranges;
pub mod read;
pub mod union;
