// A witness known within ranges: the refusals in order, and the call for every input.
#![tactic(auto)]

pub mod answers;
pub mod call;
pub mod checks;
