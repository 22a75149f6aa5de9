// The set's calls as functions of memory: what each answers and what memory is after it. No code but the plan of an insert.
#![tactic(auto)]

pub mod plan;
