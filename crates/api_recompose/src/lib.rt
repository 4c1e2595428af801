// Digits put together again, and the number of parts that a base needs (document 02, Item 2).
#![tactic(auto)]

pub mod found;
pub mod parts;
pub mod sum;
