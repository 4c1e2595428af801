// The ring product and sums of products (ring/rq.rs), on the coefficients of elements.
#![tactic(auto)]

pub mod product;
pub mod sums;
