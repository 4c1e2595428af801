// The text of the line program: a line read, an answer written, and both over a chunk of input.
#![tactic(auto)]

pub mod feeding;
pub mod reading;
pub mod writing;
