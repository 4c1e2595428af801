// The answers of the exported calls on whole slices.
#![tactic(auto)]

pub mod numbers;
pub mod verdicts;
