// The rows of A, B, C and D one after the other, each with every transcript (document 02, Item 11).
#![tactic(auto)]

pub mod a_rows;
pub mod rows;
