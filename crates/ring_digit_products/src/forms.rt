// The form in which the products take the digits: the coefficients of −a, then those of a, as `ring_rq_product::product` takes them, each with half the base added, so
// that none is below zero.
// A slice is passed whole with the place of its run: contracts speak of places in the whole slice, and a struct of the two would be built anew at each call.
ghost use Rattle.std.specs.Prelude.{◌≡◌, ◌+◌, ◌*◌, ◌%◌, ◌≤◌, length, get_or};
ghost use mathlib.Core.List.{flat_map};
ghost use Rattle.math.specs.lists.Table.{table};
ghost use Rattle.math.specs.lists.Part.{part, splice};
ghost use Rattle.spec_leaves.specs.Zq.{Q};
ghost use Rattle.ring_zq.specs.Words.{lack};
ghost use Rattle.ring_digit_products.specs.Forms.{shifted};

use ring_rq_product::product;
use ring_zq::zq::lack;
use spec_leaves::modulus;
use std::array;

// A coefficient with half the base added modulo Q, without a choice, so that it runs on several at a time.
fn shift(x: u64, half: u64) -> u64
    requires { (x ≤ 4294967295) × (half ≤ 2147483648) }
    ensures { result ≡ (x + half) % Q }
{
    let sum = x + half;
    if modulus::LACK == 1 {
        (sum + (sum + 1) / product::RADIX) % product::RADIX
    } else {
        sum % modulus::Q_U64
    }
}

// What each coefficient lacks of Q.
fn complements(a: [u32; 64]) -> [u32; 64]
    ensures { result ≡ table 64 (λ m. lack (get_or a m 0)) }
{
    array::from_fn(|m| lack(a[m]))
}

// 64 coefficients with half the base added modulo Q, stored from `to` on.
fn store_shifted(a: [u32; 64], half: u64, forms: &mut [u64], to: usize)
    requires { (half ≤ 2147483648) × (to + 64 ≤ length forms.old) }
    ensures { forms.new ≡ splice forms.old to (table 64 (λ m. (get_or a m 0 + half) % Q)) }
{
    for m in 0..64 {
        forms[to + m] = shift(u64::from(a[m]), half);
    }
}

// The form of an element stored from `to` on.
fn store_form(a: [u32; 64], half: u64, forms: &mut [u64], to: usize)
    requires { (half ≤ 2147483648) × (to + 128 ≤ length forms.old) }
    ensures { forms.new ≡ splice forms.old to (shifted half a) }
{
    let negated = complements(a);
    store_shifted(negated, half, forms, to);
    store_shifted(a, half, forms, to + 64);
}

// The forms of n elements, one after the other.
pub fn store_forms(v: &[u32], n: usize, half: u64, forms: &mut [u64])
    requires { (half ≤ 2147483648) × (64 * n ≤ length v.now) × (128 * n ≤ length forms.old) }
    ensures { forms.new ≡ splice forms.old 0 (flat_map (shifted half) (table n (λ m. part v.now (64 * m) 64))) }
{
    for m in 0..n {
        let a = ring_words::load(v, 64 * m).coeffs;
        store_form(a, half, forms, 128 * m);
    }
}
