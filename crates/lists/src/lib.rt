// Calls over a list of ids: the single calls one after the other. Reading ones walk the table first, and then look at the header no more.
#![tactic(auto)]

mod each;
pub mod insert;
pub mod read;
mod spot;
