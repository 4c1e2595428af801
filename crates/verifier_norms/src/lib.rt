// The verifier's norm checks (verifier.rs): 21 and 23, and the order of 21 to 23.
#![tactic(auto)]

pub mod norm_checks;
