// The answers of the engine's calls, as types. specs/ has the definitions that every contract cites, proofs/ their laws. No code.
#![tactic(auto)]

pub mod answers;
pub mod modulus;
