// The garbage polynomials (core/garbage_polynomials.rs) of vectors in NTT form.
#![tactic(auto)]

pub mod g;
pub mod h;
