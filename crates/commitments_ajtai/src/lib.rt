// The inner commitments t_i = A·s_i (commitments/ajtai_commitment.rs), by plain products and of vectors in NTT form.
#![tactic(auto)]

pub mod ajtai_commitment;
pub mod ntt;
