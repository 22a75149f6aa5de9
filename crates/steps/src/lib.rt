// What a chunk writes that turns from a row into a page.
#![tactic(auto)]

pub mod turn;
