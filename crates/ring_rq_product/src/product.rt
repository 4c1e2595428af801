// The ring product (`Mul for &Rq` of ring/rq.rs). With E the coefficients of −a and then those of a, and b reversed, coefficient k is the
// sum of b's 64 entries times E's from k + 1 on: one run of products without a sign, reduced once.
// A slice is passed whole with the place of its run: contracts speak of places in the whole slice, and a struct of the two would be built anew at each call.
ghost use Rattle.std.specs.Prelude.{◌≡◌, ◌+◌, ◌^◌, ◌<◌, ◌≤◌, length};
ghost use Rattle.math.specs.lists.Table.{padded};
ghost use Rattle.spec_leaves.specs.Rq.{rmul};
ghost use Rattle.ring_rq_product.specs.Product.{AllWords, extended, extended_coeff, reversed, folded, growth, halves_sum, WithProduct};

use ring_zq::zq::{Zq, lack};

// Q as a u64, and 2^32.
pub const MODULUS: u64 = Zq::Q as u64;

pub const RADIX: u64 = 4294967296;

// What Q lacks of 2^32: 2^32 is that modulo Q.
pub const LACK: u64 = RADIX - MODULUS;

// The coefficients of −a, then 64 zeros.
fn negated(a: [u32; 64]) -> [u64; 128]
    ensures { result ≡ padded 128 64 0 (extended_coeff a) }
{
    let mut out = [0u64; 128];
    for m in 0..64 {
        out[m] = u64::from(lack(a[m]));
    }
    out
}

// The coefficients of −a, then those of a.
pub fn extend(a: [u32; 64]) -> [u64; 128]
    ensures { result ≡ extended a }
{
    let mut out = negated(a);
    for m in 0..64 {
        out[64 + m] = u64::from(a[m]);
    }
    out
}

// The coefficients from the last to the first.
pub fn reverse(b: [u32; 64]) -> [u64; 64]
    ensures { result ≡ reversed b }
{
    let mut out = [0u64; 64];
    for i in 0..64 {
        out[i] = u64::from(b[63 - i]);
    }
    out
}

// A sum of products modulo 2^64, and the sum of their upper halves.
#[derive(Clone, Copy)]
pub struct Halves {
    pub sum: u64,
    pub upper: u64,
}

// A product added.
fn add(h: Halves, x: u64, y: u64) -> Halves
    requires { (h.upper ≤ 2 ^ 62) × (x < 2 ^ 32) × (y < 2 ^ 32) }
    ensures { WithProduct h.sum h.upper x y result.sum result.upper }
{
    let product = (x % RADIX) * (y % RADIX);
    let sum = std::num::wrapping_add_u64(h.sum, product);
    Halves {
        sum,
        upper: h.upper + product / RADIX,
    }
}

// The sum of the lower halves, which is what the upper halves leave of the sum, and that of the upper halves, each of which counts what Q lacks of 2^32.
fn join(h: Halves) -> u64
    requires { h.upper ≤ 2 ^ 38 }
    ensures { result ≡ halves_sum h.sum h.upper }
{
    let lower = std::num::wrapping_sub_u64(h.sum, h.upper % RADIX * RADIX);
    std::num::wrapping_add_u64(lower, h.upper * LACK)
}

// The upper and the lower halves of the products of x's 64 entries with y's from `at` on, summed: equal to the products' sum modulo Q.
pub fn dot(x: &[u64], y: &[u64], at: usize) -> u64
    requires { (length x.now ≡ 64) × (at + 64 ≤ length y.now) × AllWords x.now × AllWords y.now }
    ensures { result ≡ folded x.now y.now at }
{
    let mut h = Halves { sum: 0, upper: 0 };
    for i in 0..64 {
        h = add(h, x[i], y[at + i]);
    }
    join(h)
}

// Four sums. Each has a variable of its own in the loop, which runs on them side by side.
#[derive(Clone, Copy)]
pub struct Sums {
    pub a: u64,
    pub b: u64,
    pub c: u64,
    pub d: u64,
}

// The same for y from `at` and from the next three places on.
pub fn four(x: &[u64], y: &[u64], at: usize) -> Sums
    requires { (length x.now ≡ 64) × (at + 67 ≤ length y.now) × AllWords x.now × AllWords y.now }
    ensures a_value { (result.a ≡ folded x.now y.now at) × (result.b ≡ folded x.now y.now (at + 1)) }
    ensures c_value { (result.c ≡ folded x.now y.now (at + 2)) × (result.d ≡ folded x.now y.now (at + 3)) }
    ensures a_le_growth { (result.a ≤ growth) × (result.b ≤ growth) × (result.c ≤ growth) × (result.d ≤ growth) }
{
    let mut a = Halves { sum: 0, upper: 0 };
    let mut b = Halves { sum: 0, upper: 0 };
    let mut c = Halves { sum: 0, upper: 0 };
    let mut d = Halves { sum: 0, upper: 0 };
    for i in 0..64 {
        let factor = x[i];
        a = add(a, factor, y[at + i]);
        b = add(b, factor, y[at + 1 + i]);
        c = add(c, factor, y[at + 2 + i]);
        d = add(d, factor, y[at + 3 + i]);
    }
    Sums {
        a: join(a),
        b: join(b),
        c: join(c),
        d: join(d),
    }
}

// The product's coefficients, finished one after the other. At the head of the loop `Finished k out a b` of `specs/Product.antt` holds: the first
// k are the product's, and the later ones zero.
pub fn multiply(a: [u32; 64], b: [u32; 64]) -> [u32; 64]
    ensures { result ≡ rmul a b }
{
    let y = extend(a);
    let x = reverse(b);
    let mut out = [0u32; 64];
    for k in 0..64 {
        out[k] = (dot(&x, &y, k + 1) % MODULUS) as u32;
    }
    out
}
