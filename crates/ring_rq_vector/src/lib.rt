// Vectors of elements in lent slices (ring/rq_vector.rs): zero, and the digits of an element.
#![tactic(auto)]

pub mod digits;
pub mod vector;
