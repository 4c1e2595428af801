// The outer commitments (commitments/outer_commitments.rs).
#![tactic(auto)]

pub mod outer_commitments;
