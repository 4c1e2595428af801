// Sums of products of values modulo the three primes (document 02, Item 7), 192 from a place on in a lent slice: a term added, and the inverse NTT.
// A slice is passed whole with the place of its run: contracts speak of places in the whole slice, and a struct of the two would be built anew at each call.
ghost use Rattle.std.specs.Prelude.{◌≡◌, ◌+◌, ◌≤◌, length};
ghost use Rattle.math.specs.lists.Table.{table};
ghost use Rattle.math.specs.lists.Part.{part, splice};
ghost use Rattle.ntt_vectors.specs.Sums.{NttRoom, ProductsRoom, product_added, added, inverse_from};

use ntt_product::ntt_form;
use ntt_product::ntt_form::Sums;
use ntt_transform::table::Twiddles;
use ring_rq::rq::Rq;

// The products of N values added to the N sums from a place on.
pub fn add_products<const N: usize>(
    sums: &mut [u64],
    at: usize,
    x: &[u32],
    x_at: usize,
    y: &[u32],
    y_at: usize,
)
    requires { (at + N ≤ length sums.old) × (x_at + N ≤ length x.now) × (y_at + N ≤ length y.now) × ProductsRoom N sums.old at x.now x_at y.now y_at }
    ensures { sums.new ≡ splice sums.old at (table N (product_added sums.old at x.now x_at y.now y_at)) }
{
    for k in 0..N {
        sums[at + k] += u64::from(x[x_at + k]) * u64::from(y[y_at + k]);
    }
}

// The products of 192 values added.
#[tactic(auto, unfolding(crate::specs::Sums::added))]
pub fn add_product(sums: &mut [u64], at: usize, x: &[u32], x_at: usize, y: &[u32], y_at: usize)
    requires { (at + 192 ≤ length sums.old) × (x_at + 192 ≤ length x.now) × (y_at + 192 ≤ length y.now) × NttRoom sums.old at x.now x_at y.now y_at }
    ensures { sums.new ≡ splice sums.old at (added sums.old at x.now x_at y.now y_at) }
{
    add_products::<192>(sums, at, x, x_at, y, y_at);
}

// The 64 sums from a place on.
pub fn load(sums: &[u64], at: usize) -> [u64; 64]
    requires { at + 64 ≤ length sums.now }
    ensures { result ≡ part sums.now at 64 }
{
    let mut out = [0u64; 64];
    out.copy_from_slice(&sums[at..at + 64]);
    out
}

// The element whose values the sums are.
pub fn inverse(sums: &[u64], at: usize, w: &Twiddles) -> Rq
    requires { at + 192 ≤ length sums.now }
    ensures { result.coeffs ≡ inverse_from sums.now at }
{
    let first = load(sums, at);
    let second = load(sums, at + 64);
    let third = load(sums, at + 128);
    let parts = Sums {
        first,
        second,
        third,
    };
    Rq {
        coeffs: ntt_form::inverse(parts, w),
    }
}
