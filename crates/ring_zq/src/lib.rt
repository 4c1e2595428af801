// Numbers modulo Q (ring/zq.rs), and the squared norm of a run of words in a u128 (`Norms` of ring/mod.rs).
#![tactic(auto)]

pub mod digits;
pub mod norm;
pub mod norms;
pub mod reciprocal;
pub mod wide;
pub mod zq;
