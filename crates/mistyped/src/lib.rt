// Which constant was mistyped (document 02, Item 8): after a failed check 22, the indexes of b0 at which one number mends it.
#![tactic(auto)]

pub mod answers;
pub mod call;
