// The steps and the NTT, as oracle/ and bench/ call them: each is the call of the same name of `bench_calls`.
#![tactic(auto)]

mod calls;
mod judged;
mod ntt;
