// Layers of the transform of length 64 modulo a prime 2^27 − d with d at most 2175, over lent powers of its root. Each function takes the prime, or
// the modulus alone where it only folds, and is proved once for all of them.
#![tactic(auto)]

pub mod fold;
pub mod layers;
pub mod words;
