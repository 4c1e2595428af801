// Refusals of the call on many transcripts: where each part of the slices lies, and what each transcript is refused by.
#![tactic(auto)]

pub mod bounds;
pub mod parts;
pub mod whole;
