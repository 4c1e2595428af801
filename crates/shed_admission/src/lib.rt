// Refusals of the calls on a run of witness vectors (document 02, Item 10).
#![tactic(auto)]

pub mod admission;
pub mod checks;
