// Entry by entry: words folded, sums reduced, and remainders of a multiple.
ghost use Rattle.std.specs.Prelude.{◌≡◌, ◌<◌};
ghost use Rattle.ntt_layers.specs.Words.{Small, folded_of, reduced_of, remainders_of};

use crate::fold::{PseudoMersenne, WORD};

// Each word folded.
pub fn fold_words(x: [u32; 64], prime: PseudoMersenne) -> [u32; 64]
    ensures { result ≡ folded_of prime.delta x }
{
    let mut out = [0u32; 64];
    for k in 0..64 {
        out[k] = prime.fold_word(x[k]);
    }
    out
}

// Each sum reduced.
pub fn reduce_sums(s: [u64; 64], prime: PseudoMersenne) -> [u32; 64]
    ensures { result ≡ reduced_of prime.delta s }
{
    let mut out = [0u32; 64];
    for k in 0..64 {
        out[k] = prime.reduce(prime.fold_sum(s[k])) as u32;
    }
    out
}

// The remainder of each word times `factor`, plus `offset`.
pub fn remainders(x: [u32; 64], factor: u64, offset: u64, prime: PseudoMersenne) -> [u32; 64]
    requires { (factor < 134217728) × (offset < 134217728) × Small x }
    ensures { result ≡ remainders_of prime.delta factor offset x }
{
    let mut out = [0u32; 64];
    for k in 0..64 {
        let multiple = u64::from(x[k]) * (factor % WORD) + offset;
        out[k] = prime.rest(prime.reduce(multiple) as u32);
    }
    out
}
