// The garbage polynomials g_ij = ⟨s_i, s_j⟩ and h_ij = ⟨φ_i, s_j⟩ + ⟨φ_j, s_i⟩ (core/garbage_polynomials.rs), each cell of the triangle once.
#![tactic(auto)]

pub mod g;
pub mod h;
