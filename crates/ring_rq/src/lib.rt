// Ring elements (ring/rq.rs): the ring Z_Q[X]/(X^64 + 1).
#![tactic(auto)]

pub mod rq;
