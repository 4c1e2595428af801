// The sections of a slice: their counts, their end and their words' ranges.
#![tactic(auto)]

pub mod counts;
pub mod ranges;
pub mod sections;
pub mod slices;
