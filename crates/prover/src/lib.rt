// The prover (prover.rs): the whole call and its five rounds, on whole slices.
#![tactic(auto)]

pub mod prove;
