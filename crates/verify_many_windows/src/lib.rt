// The window of the scratch that each transcript has: digits stored in it, the product of one row, and the windows of all.
#![tactic(auto)]

pub mod digits;
pub mod row;
pub mod windows;
