// The refusals before the work: each module tests one slice.
#![tactic(auto)]

pub mod calls;
pub mod job;
pub mod randomness;
pub mod slices;
pub mod transcript;
pub mod transcript_length;
pub mod witness;
