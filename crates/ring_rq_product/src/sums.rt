// Sums of products and of scaled elements, coefficient by coefficient, in u64 and reduced once at the end.
// A slice is passed whole with the place of its run: contracts speak of places in the whole slice, and a struct of the two would be built anew at each call.
ghost use Rattle.std.specs.Prelude.{◌≡◌, ◌+◌, ◌%◌, ◌≤◌, length, slice_index};
ghost use Rattle.math.specs.lists.Table.{table};
ghost use Rattle.math.specs.lists.Part.{part};
ghost use Rattle.spec_leaves.specs.Zq.{Q};
ghost use Rattle.spec_leaves.specs.Rq.{rmul, rscale};
ghost use Rattle.ring_rq_product.specs.Sums.{SumsRoom, Added};
ghost use Rattle.ring_rq_product.specs.Product.{growth};

use crate::product;
use ring_zq::wide::wide;

// The product of two elements added to the sums.
pub fn add_product(sums: [u64; 64], a: [u32; 64], b: [u32; 64]) -> [u64; 64]
    requires { SumsRoom sums }
    ensures { Added growth sums (rmul a b) result }
{
    let y = product::extend(a);
    let x = product::reverse(b);
    let mut out = [0u64; 64];
    for b in 0..16 {
        let k = 4 * b;
        let f = product::four(&x, &y, k + 1);
        out[k] = sums[k] + f.a;
        out[k + 1] = sums[k + 1] + f.b;
        out[k + 2] = sums[k + 2] + f.c;
        out[k + 3] = sums[k + 3] + f.d;
    }
    out
}

// The product of the element at `at` with a number added to the sums, each product folded once.
pub fn add_scaled(sums: &mut [u64], words: &[u32], at: usize, factor: u32)
    requires { (length sums.old ≡ 64) × (at + 64 ≤ length words.now) × SumsRoom sums.old }
    ensures { (length sums.new ≡ 64) × Added growth sums.old (rscale (part words.now at 64) factor) sums.new }
{
    let c = wide(factor);
    for k in 0..64 {
        let term = wide(words[at + k]) * c;
        sums[k] = sums[k] + (term % product::RADIX + term / product::RADIX * product::LACK);
    }
}

// The sums modulo Q.
pub fn reduce(sums: [u64; 64]) -> [u32; 64]
    ensures { result ≡ table 64 (λ k. slice_index sums k % Q) }
{
    let mut out = [0u32; 64];
    for k in 0..64 {
        out[k] = (sums[k] % product::MODULUS) as u32;
    }
    out
}
