// The ring product by the NTT modulo three primes (document 02, Item 7), and elements in NTT form for inner products.
#![tactic(auto)]

pub mod crt;
pub mod ntt_form;
pub mod product;
