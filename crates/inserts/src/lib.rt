// Inserts into a set. A bit of a dense chunk is set on the spot; into any other chunk the plan is found by a crate that only reads, and done by short writes.
#![tactic(auto)]

pub mod insert;
