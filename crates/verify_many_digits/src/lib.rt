// The rows of B, C and D with the digits of every transcript, in NTT form in its window of the scratch (document 02, Item 11).
#![tactic(auto)]

pub mod forms;
pub mod rows;
pub mod sums;
