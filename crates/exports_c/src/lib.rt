// The library for C and Rust: each entry under its own symbol, and the archive is made of this crate. include/brothpillow.h declares them; all is proved in exports.
#![tactic(auto)]

pub mod change;
pub mod list;
pub mod number;
pub mod partition;
pub mod ranges;
pub mod read;
pub mod union;
