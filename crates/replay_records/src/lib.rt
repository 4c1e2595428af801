// Recorded answers: records, the slices in them, and the report of what differs.
#![tactic(auto)]

pub mod counts;
pub mod kinds;
pub mod marks;
pub mod reading;
pub mod report;
pub mod sections;
pub mod slices;
pub mod words;
