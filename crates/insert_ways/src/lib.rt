// The ways that an insert goes: the short ones, into a dense chunk and to the end of a row, both with a direct entry, and the whole one, into any chunk.
#![tactic(auto)]

pub mod append;
pub mod chunk;
pub mod direct;
pub mod whole;
