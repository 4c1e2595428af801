// What the transcript draws (transcript/mod.rs): the projection's entries and the challenges.
#![tactic(auto)]

pub mod challenge;
pub mod projection;
