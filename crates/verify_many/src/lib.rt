// Up to eight transcripts of one job (document 02, Item 11): the judge of each, their verdicts, and the call.
#![tactic(auto)]

pub mod answers;
pub mod call;
pub mod judge;
pub mod verdicts;
