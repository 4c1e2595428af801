// One layer of the NTT, and one of the inverse NTT. The twiddles stand in w times 2^32, which each product loses.
// A slice is passed whole with the place of its run: contracts speak of places in the whole slice, and a struct of the two would be built anew at each call.
ghost use Rattle.std.specs.Prelude.{◌≡◌};
ghost use Rattle.ntt_layers.specs.Layer.{Powers, LayerFits, SpreadFits, InverseLayerFits, turned_of, spread_of, layer_of, inverse_layer_of};

use crate::fold::{Prime, PseudoMersenne, RADIX, WORD};

// The upper half times the twiddles from `at` on. In a loop of their own the products are compiled four at a time.
fn turn(x: [u32; 64], w: &[u32], at: usize, prime: Prime) -> [u32; 64]
    requires { Powers prime.delta prime.opposite w.now at }
    ensures { result ≡ turned_of prime.delta prime.opposite w.now at x }
{
    let mut out = x;
    for t in 0..32 {
        out[t + 32] = prime.montgomery(u64::from(w[at + t]) * u64::from(out[t + 32])) as u32;
    }
    out
}

// The sums and differences of the entries t and t + 32, at 2t and 2t + 1.
fn spread(x: [u32; 64], prime: PseudoMersenne) -> [u32; 64]
    requires { SpreadFits prime.delta x }
    ensures { result ≡ spread_of prime.delta x }
{
    let mut out = [0u32; 64];
    for t in 0..32 {
        out[2 * t] = x[t] + x[t + 32];
        out[2 * t + 1] = x[t] + (3 * (134217728 - prime.delta as u32) - x[t + 32]);
    }
    out
}

// Entries t and t + 32 give the entries 2t and 2t + 1; w has the twiddles from `at` on.
pub fn layer(x: [u32; 64], w: &[u32], at: usize, prime: Prime) -> [u32; 64]
    requires { LayerFits prime.delta prime.opposite w.now at x }
    ensures { result ≡ layer_of prime.delta prime.opposite w.now at x }
{
    let modulus = PseudoMersenne { delta: prime.delta };
    spread(turn(x, w, at, prime), modulus)
}

// Entries 2t and 2t + 1 give the entries t and t + 32, doubled; w has minus the inverses of the powers from `at` on.
pub fn inverse_layer(y: [u32; 64], w: &[u32], at: usize, prime: Prime) -> [u32; 64]
    requires { InverseLayerFits prime.delta prime.opposite w.now at y }
    ensures { result ≡ inverse_layer_of prime.delta prime.opposite w.now at y }
{
    let modulus = PseudoMersenne { delta: prime.delta };
    let mut out = [0u32; 64];
    for t in 0..32 {
        let u = y[2 * t];
        let v = y[2 * t + 1];
        let difference = (u64::from(v) + (3 * (RADIX - prime.delta) - u64::from(u))) % WORD;
        out[t] = modulus.fold_word(u + v);
        out[t + 32] = prime.montgomery(u64::from(w[at + t]) * difference) as u32;
    }
    out
}
