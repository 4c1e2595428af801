// The verifier's checks of the relations (verifier.rs): 24 to 26, and the order of 24 to 27.
#![tactic(auto)]

pub mod lines;
pub mod relations;
