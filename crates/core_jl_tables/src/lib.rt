// The omega part of φ'' for four k at once: tables of the sums of four rows' terms for each choice of their entries, and the columns that are added up from them.
#![tactic(auto)]

pub mod fours;
pub mod pairs;
pub mod tables;
