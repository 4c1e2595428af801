// The verifier (verifier.rs): all checks in order, and the call on whole slices.
#![tactic(auto)]

pub mod verify;
