// What the verifier's checks (verifier.rs) have in common: what they judge, and equality of elements and of runs of words.
// specs/ says what a check stands on and what it answers, proofs/ what follows from these.
#![tactic(auto)]

pub mod equal;
pub mod exchange;
