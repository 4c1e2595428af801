// Squared norms of vectors of elements in lent slices (ring/rq_vector.rs), of their digits and of their two parts.
#![tactic(auto)]

pub mod norm;
pub mod parts;
