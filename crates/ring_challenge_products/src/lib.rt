// Inner products of elements with challenges: a challenge is a sum of 41 signed powers of X, 10 of them twice, and its product with an element so many shifted sums.
#![tactic(auto)]

pub mod powers;
pub mod products;
