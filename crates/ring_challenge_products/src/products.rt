// Sums of elements from places on: with the coefficients of −a, a and −a one after the other, those of X^j·a start j places before a, and those of −X^j·a j places before the second −a.
// A slice is passed whole with the place of its run: contracts speak of places in the whole slice, and a struct of the two would be built anew at each call.
ghost use Rattle.std.specs.Prelude.{◌≡◌, ◌+◌, ◌*◌, ◌≤◌, ◌^◌, length, get_or};
ghost use Rattle.math.specs.lists.Table.{table};
ghost use Rattle.math.specs.lists.Part.{splice};
ghost use Rattle.ring_rq_product.specs.Product.{AllWords};
ghost use Rattle.ring_inner_product.specs.Run.{Run};
ghost use Rattle.ring_challenge_products.specs.Powers.{Places, powers_product};
ghost use Rattle.ring_challenge_products.specs.Sums.{Entries, Extension, Row, row_sum, seven_sum, Grown, UpTo};

use ring_rq::rq::Rq;
use ring_rq_product::{product, sums};

// Each number twice.
fn doubled(a: [u64; 128]) -> [u64; 128]
    requires { AllWords a }
    ensures { result ≡ table 128 (λ m. get_or a m 0 + get_or a m 0) }
{
    let mut out = [0u64; 128];
    for m in 0..128 {
        out[m] = a[m] + a[m];
    }
    out
}

// The first `count` numbers of `from` stored from `at` on.
fn copy(e: &mut [u64], at: usize, from: &[u64], count: usize)
    requires { (at + count ≤ length e.old) × (count ≤ length from.now) }
    ensures { e.new ≡ splice e.old at (table count (λ m. get_or from.now m 0)) }
{
    for m in 0..count {
        e[at + m] = from[m];
    }
}

// The coefficients of −a, a and −a, 64 zeros, then twice the former.
fn extend(a: [u32; 64]) -> [u64; 448]
    ensures { Extension result a }
{
    let once = product::extend(a);
    let twice = doubled(once);
    let mut e = [0u64; 448];
    copy(&mut e, 0, &once, 128);
    copy(&mut e, 128, &once, 64);
    copy(&mut e, 256, &twice, 128);
    copy(&mut e, 384, &twice, 64);
    e
}

// The entries from seven places on added to the sums.
fn add_seven(
    sums: &mut [u64],
    e: &[u64],
    a: usize,
    b: usize,
    c: usize,
    d: usize,
    p: usize,
    q: usize,
    s: usize,
)
    requires { UpTo (2 ^ 62) sums.old × Entries e.now × (a ≤ 384) × (b ≤ 384) × (c ≤ 384) × (d ≤ 384) × (p ≤ 384) × (q ≤ 384) × (s ≤ 384) }
    ensures { Grown sums.old sums.new (seven_sum e.now a b c d p q s) }
{
    for k in 0..64 {
        sums[k] = sums[k]
            + (e[a + k] + e[b + k] + e[c + k] + e[d + k] + e[p + k] + e[q + k] + e[s + k]);
    }
}

// The entries from the 42 places of a row on added to the sums.
fn add_row(sums: &mut [u64], powers: &[u32], at: usize, e: &[u64])
    requires { UpTo (2 ^ 61) sums.old × Row powers.now at × Entries e.now }
    ensures { Grown sums.old sums.new (row_sum powers.now at e.now 42) }
{
    for g in 0..6 {
        let t = at + 7 * g;
        let a = powers[t] as usize;
        let b = powers[t + 1] as usize;
        let c = powers[t + 2] as usize;
        let d = powers[t + 3] as usize;
        let p = powers[t + 4] as usize;
        let q = powers[t + 5] as usize;
        let s = powers[t + 6] as usize;
        add_seven(sums, e, a, b, c, d, p, q, s);
    }
}

// Σ c_i·x_i, of r elements x_i, a step apart, and the places of r elements c_i.
pub fn inner_product(powers: &[u32], x: &[u32], x_at: usize, x_step: usize, r: usize) -> Rq
    requires { Places powers.now r × Run x.now x_at x_step r }
    ensures { result.coeffs ≡ powers_product powers.now x.now x_at x_step r }
{
    let mut totals = [0u64; Rq::DEGREE];
    let mut j = x_at;
    for i in 0..r {
        let a = ring_words::load(x, j).coeffs;
        let e = extend(a);
        add_row(&mut totals, powers, 64 * i, &e);
        j += x_step;
    }
    Rq {
        coeffs: sums::reduce(totals),
    }
}
