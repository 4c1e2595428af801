// The parameters of the relation that is proved (relation/env_params.rs).
#![tactic(auto)]

pub mod env_params;
