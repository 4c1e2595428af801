// Elements in NTT form: an inner product of up to 512 elements is a sum of products of their values, with one inverse NTT.
ghost use Rattle.std.specs.Prelude.{◌≡◌, replicate};
ghost use Rattle.ntt_product.specs.NttForm.{ProductsFit, Transform, values_added, inverse_ntt_of};

use crate::crt;
use crate::crt::MODULUS;
use ntt_layers::words;
use ntt_transform::moduli::{FIRST, FIRST_MODULUS, SECOND, SECOND_MODULUS, THIRD, THIRD_MODULUS};
use ntt_transform::table::Twiddles;
use ntt_transform::transforms;

// The values of an element modulo the three primes.
#[derive(Clone, Copy)]
pub struct Transformed {
    pub first: [u32; 64],
    pub second: [u32; 64],
    pub third: [u32; 64],
}

// Sums of products of values.
#[derive(Clone, Copy)]
pub struct Sums {
    pub first: [u64; 64],
    pub second: [u64; 64],
    pub third: [u64; 64],
}

// No product yet.
pub fn no_sums() -> Sums
    ensures { (result.first ≡ replicate 64 0) × (result.second ≡ replicate 64 0) × (result.third ≡ replicate 64 0) }
{
    Sums {
        first: [0u64; 64],
        second: [0u64; 64],
        third: [0u64; 64],
    }
}

pub fn transform(a: [u32; 64], w: &Twiddles) -> Transformed
    ensures { Transform a result.first result.second result.third }
{
    let first = transforms::forward(a, &w.words, 0, FIRST);
    let second = transforms::forward(a, &w.words, 192, SECOND);
    let third = transforms::forward(a, &w.words, 384, THIRD);
    Transformed {
        first,
        second,
        third,
    }
}

// The products of values added, modulo one prime.
pub fn add_values(s: [u64; 64], x: [u32; 64], y: [u32; 64]) -> [u64; 64]
    requires { ProductsFit s x y }
    ensures { result ≡ values_added s x y }
{
    let mut out = [0u64; 64];
    for k in 0..64 {
        out[k] = s[k] + u64::from(x[k]) * u64::from(y[k]);
    }
    out
}

// The product of two transformed elements added to the sums. From no sums there is room for 512 products.
pub fn add_product(sums: Sums, x: Transformed, y: Transformed) -> Sums
    requires first { ProductsFit sums.first x.first y.first }
    requires second { ProductsFit sums.second x.second y.second }
    requires third { ProductsFit sums.third x.third y.third }
    ensures first { result.first ≡ values_added sums.first x.first y.first }
    ensures second { result.second ≡ values_added sums.second x.second y.second }
    ensures third { result.third ≡ values_added sums.third x.third y.third }
{
    let s = sums.first;
    let xs = x.first;
    let ys = y.first;
    let first = add_values(s, xs, ys);
    let t = sums.second;
    let xt = x.second;
    let yt = y.second;
    let second = add_values(t, xt, yt);
    let u = sums.third;
    let xu = x.third;
    let yu = y.third;
    let third = add_values(u, xu, yu);
    Sums {
        first,
        second,
        third,
    }
}

// 512·64·Q² modulo the three primes.
const FIRST_OFFSET: u64 = (MODULUS % 134217089) * (MODULUS % 134217089) % 134217089 * 32768
    % 134217089;

const SECOND_OFFSET: u64 = (MODULUS % 134215681) * (MODULUS % 134215681) % 134215681 * 32768
    % 134215681;

const THIRD_OFFSET: u64 = (MODULUS % 134215553) * (MODULUS % 134215553) % 134215553 * 32768
    % 134215553;

// From sums of products of values to the coefficients of the inner product. The factors are the inverses of 64, and the offsets the remainders of
// 512·64·Q², which makes every sum of 512 products positive.
pub fn inverse(sums: Sums, w: &Twiddles) -> [u32; 64]
    ensures { result ≡ inverse_ntt_of sums.first sums.second sums.third }
{
    let s = sums.first;
    let t = sums.second;
    let u = sums.third;
    let first = words::remainders(
        transforms::inverse(s, &w.words, 576, FIRST),
        132119947,
        FIRST_OFFSET,
        FIRST_MODULUS,
    );
    let second = words::remainders(
        transforms::inverse(t, &w.words, 768, SECOND),
        132118561,
        SECOND_OFFSET,
        SECOND_MODULUS,
    );
    let third = words::remainders(
        transforms::inverse(u, &w.words, 960, THIRD),
        132118435,
        THIRD_OFFSET,
        THIRD_MODULUS,
    );
    crt::crt_all(first, second, third)
}
