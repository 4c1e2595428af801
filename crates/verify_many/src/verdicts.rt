// The verdict on each transcript of those that lie end to end (document 02, Item 11), with the products of its rows in its window of the scratch.
pub mod all;
pub mod part;
