// The digits of ring elements (ring/rq.rs).
#![tactic(auto)]

pub mod digits;
