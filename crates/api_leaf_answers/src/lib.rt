// The answers of the exported leaf calls, and what those calls work out.
#![tactic(auto)]

pub mod answers;
pub mod challenge;
pub mod digits;
