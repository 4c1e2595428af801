// The exported calls, as C calls them: each is the call of the same name of `labrador`.
#![tactic(auto)]

mod calls;
mod digits;
mod elements;
mod loads;
mod many_call;
mod mistyped_call;
mod needs;
mod numbers;
mod ranges_call;
mod recomposed;
mod run_calls;
