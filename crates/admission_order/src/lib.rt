// The refusals before the work, in document 01's order: what a call of the prover and of the verifier is refused first.
#![tactic(auto)]

pub mod prover;
pub mod verifier;
