// The projection (core/jl.rs).
#![tactic(auto)]

pub mod projection;
pub mod rows;
