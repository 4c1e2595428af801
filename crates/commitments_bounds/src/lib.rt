// The norm tests of what is committed to, 13 to 16 (commitments/common_instances.rs).
#![tactic(auto)]

pub mod common_instances;
