// The NTT modulo a prime and its inverse; w has the twiddles of the layers from `at` on.
// A slice is passed whole with the place of its run: contracts speak of places in the whole slice, and a struct of the two would be built anew at each call.
ghost use Rattle.std.specs.Prelude.{◌≡◌};
ghost use Rattle.ntt_transform.specs.Transforms.{TwiddlesFit, forward_of, inverse_transform_of};

use ntt_layers::fold::{Prime, PseudoMersenne};
use ntt_layers::{layers, words};

// The values at the odd powers of the root, each below twice the prime.
pub fn forward(a: [u32; 64], w: &[u32], at: usize, prime: Prime) -> [u32; 64]
    requires { TwiddlesFit prime.delta prime.opposite w.now at }
    ensures { result ≡ forward_of prime.delta prime.opposite w.now at a }
{
    let modulus = PseudoMersenne { delta: prime.delta };
    let x0 = words::fold_words(a, modulus);
    let x1 = layers::layer(x0, w, at + 0, prime);
    let x2 = layers::layer(x1, w, at + 32, prime);
    let x3 = layers::layer(x2, w, at + 64, prime);
    let x4 = layers::layer(x3, w, at + 96, prime);
    let x5 = layers::layer(x4, w, at + 128, prime);
    let x6 = layers::layer(x5, w, at + 160, prime);
    words::fold_words(x6, modulus)
}

// From sums of products of values back to 64 times the coefficients, each below three times the prime.
pub fn inverse(s: [u64; 64], w: &[u32], at: usize, prime: Prime) -> [u32; 64]
    requires { TwiddlesFit prime.delta prime.opposite w.now at }
    ensures { result ≡ inverse_transform_of prime.delta prime.opposite w.now at s }
{
    let modulus = PseudoMersenne { delta: prime.delta };
    let y0 = words::reduce_sums(s, modulus);
    let y1 = layers::inverse_layer(y0, w, at + 160, prime);
    let y2 = layers::inverse_layer(y1, w, at + 128, prime);
    let y3 = layers::inverse_layer(y2, w, at + 96, prime);
    let y4 = layers::inverse_layer(y3, w, at + 64, prime);
    let y5 = layers::inverse_layer(y4, w, at + 32, prime);
    layers::inverse_layer(y5, w, at + 0, prime)
}
