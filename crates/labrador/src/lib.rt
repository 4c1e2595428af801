// The exported calls.
#![tactic(auto)]

pub mod calls;
pub mod digits;
pub mod elements;
pub mod loads;
pub mod many_call;
pub mod mistyped_call;
pub mod needs;
pub mod numbers;
pub mod ranges_call;
pub mod recomposed;
pub mod run_calls;
