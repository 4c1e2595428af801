// Vectors of elements in NTT form, and sums of products of these, in lent slices (document 02, Item 7).
#![tactic(auto)]

pub mod sums;
pub mod vectors;
