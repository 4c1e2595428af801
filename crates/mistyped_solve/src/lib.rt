// What mends the rows of check 22 (document 02, Items 8 and 12): congruences, the rows of an index, and the list in its order.
#![tactic(auto)]

pub mod congruence;
pub mod list;
pub mod rows;
