// Witness vectors known within ranges (document 02, Item 14): smallest and largest norms, pairs that are refused, and what is told of each vector.
#![tactic(auto)]

pub mod norms;
pub mod pairs;
pub mod vectors;
