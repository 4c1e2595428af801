// The operands of the exported leaf calls: words tested all at once, and the first wrong one with its place.
#![tactic(auto)]

pub mod leaf;
pub mod scan;
