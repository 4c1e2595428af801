// Sums of products of words with numbers up to 2^16: 64 of them stay below 2^54, so that nothing is folded.
// A slice is passed whole with the place of its run: contracts speak of places in the whole slice, and a struct of the two would be built anew at each call.
ghost use Rattle.std.specs.Prelude.{◌≡◌, ◌+◌, ◌*◌, ◌≤◌, ◌<◌, ◌^◌, length, get_or};
ghost use Rattle.math.specs.lists.Table.{table};
ghost use Rattle.ring_rq_product.specs.Product.{AllWords};
ghost use Rattle.ring_digit_products.specs.Small.{products_sum, complement, Factors};

use ring_rq_product::product;
use ring_rq_product::product::Sums;
use spec_leaves::modulus;

// A sum with a product added.
fn add_term(sum: u64, x: u64, y: u64) -> u64
    requires { (sum ≤ 2 ^ 62) × (x < 2 ^ 32) × (y ≤ 2 ^ 16) }
    ensures { (result ≡ sum + x * y) × (result ≤ sum + 2 ^ 48) }
{
    sum + (x % product::RADIX) * (y % product::RADIX)
}

// The sums of the products of x with y from `at` on and from the next three places on, each started from a number.
fn four(x: &[u64], y: &[u64], at: usize, start: u64) -> Sums
    requires { Factors x.now y.now at 67 start }
    ensures a_value { (result.a ≡ start + products_sum x.now y.now at) × (result.b ≡ start + products_sum x.now y.now (at + 1)) }
    ensures c_value { (result.c ≡ start + products_sum x.now y.now (at + 2)) × (result.d ≡ start + products_sum x.now y.now (at + 3)) }
    ensures a_bound { (result.a ≤ 2 ^ 55) × (result.b ≤ 2 ^ 55) × (result.c ≤ 2 ^ 55) × (result.d ≤ 2 ^ 55) }
{
    let mut a = start;
    let mut b = start;
    let mut c = start;
    let mut d = start;
    for i in 0..64 {
        let factor = x[i];
        a = add_term(a, factor, y[at + i]);
        b = add_term(b, factor, y[at + 1 + i]);
        c = add_term(c, factor, y[at + 2 + i]);
        d = add_term(d, factor, y[at + 3 + i]);
    }
    Sums { a, b, c, d }
}

// A multiple of Q that no word is above.
const LIFT: u64 = (4294967295 + modulus::Q_U64 - 1) / modulus::Q_U64 * modulus::Q_U64;

// What 64 words lack of it, summed, times half the base.
pub fn complement(x: &[u64], half: u64) -> u64
    requires { (length x.now ≡ 64) × AllWords x.now × (half ≤ 2 ^ 15) }
    ensures { (result ≡ complement x.now half) × (result ≤ 2 ^ 54) }
{
    let mut sum: u64 = 0;
    for i in 0..64 {
        sum += LIFT - x[i];
    }
    half * sum
}

// The 64 sums of the products of x with y from `at` + 1 on, `at` + 2 on, and so on, each started from a number, added to the sums.
pub fn add_products(sums: [u64; 64], x: &[u64], y: &[u64], at: usize, start: u64) -> [u64; 64]
    requires { Factors x.now y.now at 128 start × ((k : _) → k < 64 → get_or sums k 0 ≤ 2 ^ 62) }
    ensures { result ≡ table 64 (λ k. get_or sums k 0 + (start + products_sum x.now y.now (at + k + 1))) }
{
    let mut out = [0u64; 64];
    for b in 0..16 {
        let k = 4 * b;
        let f = four(x, y, at + k + 1, start);
        out[k] = sums[k] + f.a;
        out[k + 1] = sums[k + 1] + f.b;
        out[k + 2] = sums[k + 2] + f.c;
        out[k + 3] = sums[k + 3] + f.d;
    }
    out
}
