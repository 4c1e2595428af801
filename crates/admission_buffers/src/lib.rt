// The refusals of the lent buffers: 1 and 2.
#![tactic(auto)]

pub mod output;
pub mod scratch;
