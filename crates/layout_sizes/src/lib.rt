// What the parameters fix: the sections of each slice, where each starts, and the lengths that the buffers need.
#![tactic(auto)]

pub mod buffers;
pub mod names;
pub mod offsets;
pub mod slices;
