// Steps of prover and verifier, and the NTT, as exported calls for oracle/ and bench/ alone.
#![tactic(auto)]

pub mod calls;
pub mod fits;
pub mod judged;
pub mod ntt;
pub mod work;
