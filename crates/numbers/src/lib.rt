// Pure numbers: ids and their chunks, budgets, powers of two, elements of slices.
#![tactic(auto)]

pub mod budget;
pub mod element;
pub mod id;
pub mod power;
