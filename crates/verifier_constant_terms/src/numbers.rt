// Sums of products of words.
ghost use Rattle.std.specs.Prelude.{◌≡◌, ◌+◌, ◌*◌, ◌≤◌, ◌<◌, ◌%◌, ◌^◌, length};
ghost use Rattle.spec_leaves.specs.Zq.{Q};
ghost use Rattle.verifier_constant_terms.specs.Terms.{products};

use ring_rq_product::product;
use ring_zq::wide::wide;

// A number modulo Q with the products of the `count` words from two places on added: the upper half of a product counts what Q lacks of 2^32.
pub fn add_products(sum: u64, x: &[u32], x_at: usize, y: &[u32], y_at: usize, count: usize) -> u64
    requires { (x_at + count ≤ length x.now) × (y_at + count ≤ length y.now) × (sum + count * 2 ^ 39 < 2 ^ 64) }
    ensures { (result % Q ≡ (sum + products x.now x_at y.now y_at count) % Q) × (result ≤ sum + count * 2 ^ 39) }
{
    let mut total = sum;
    for k in 0..count {
        let term = wide(x[x_at + k]) * wide(y[y_at + k]);
        total += term / product::RADIX * product::LACK + term % product::RADIX;
    }
    total
}
