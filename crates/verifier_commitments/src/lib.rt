// The verifier's checks of the outer commitments (verifier.rs): 28 and 29, and the order of 14, 15, 28, 16 and 29.
#![tactic(auto)]

pub mod outer;
pub mod outer_commitments;
