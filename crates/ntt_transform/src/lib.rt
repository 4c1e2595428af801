// The transform of length 64 and its inverse modulo one of three primes, over one table of the powers of their roots.
#![tactic(auto)]

pub mod moduli;
pub mod table;
pub mod transforms;
