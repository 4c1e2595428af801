// The verifier's check of the constant terms (verifier.rs): 22.
#![tactic(auto)]

pub mod constant_terms;
pub mod numbers;
