// The second aggregation (core/aggregate.rs) with weights in NTT form, and φ with b'' in one pass over φ''.
#![tactic(auto)]

pub mod forms;
pub mod mix;
pub mod one_pass;
