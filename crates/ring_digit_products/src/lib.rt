// Inner products of elements with digits: of a small base, their products are summed without folding.
#![tactic(auto)]

pub mod forms;
pub mod products;
pub mod small;
