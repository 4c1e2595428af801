// The digits of an element (`Rq::decompose` of ring/rq.rs), row after row: row k has digit k of each coefficient.
ghost use Rattle.std.specs.Prelude.{◌≡◌, ◌≤◌, ◌<◌, ◌^◌, ◌/◌, ◌%◌};
ghost use Rattle.math.specs.lists.Table.{table};
ghost use Rattle.spec_leaves.specs.Zq.{size};
ghost use Rattle.spec_leaves.specs.Digits.{next_size};
ghost use Rattle.spec_leaves.specs.Rq.{coeff, is_zero, digit_rows, left_row};
ghost use Rattle.ring_rq_digits.specs.Digits.{digit_of};

use ring_rq::rq::Rq;
use ring_zq::reciprocal::Quotient;
use ring_zq::zq::Zq;
use ring_zq::{digits, reciprocal};
use std::array;

// The sizes of the coefficients' centres.
pub fn sizes_of(a: [u32; 64]) -> [u32; 64]
    ensures { result ≡ table 64 (λ j. size (coeff a j)) }
{
    array::from_fn(|j| Zq(a[j]).size())
}

// A row of digits, and the sizes that go on.
#[derive(Clone, Copy)]
pub struct Taken {
    pub row: [u32; 64],
    pub sizes: [u32; 64],
}

// The row of digits that the sizes give, with the coefficients' signs, each size divided by the base as `divide` does.
fn take_row_by<F: Fn(u32) -> Quotient>(
    a: [u32; 64],
    base: u32,
    sizes: [u32; 64],
    divide: F,
) -> Taken
    requires base_above_one { 1 < base }
    requires callable { (x : _) → x < 2 ^ 32 → F.pre divide x }
    requires divides { (x : _) (q : _) → F.post divide x q → (q.quotient ≡ x / base) × (q.rest ≡ x % base) }
    ensures { (result.row ≡ table 64 (λ j. digit_of base (coeff a j) (coeff sizes j))) × (result.sizes ≡ table 64 (λ j. next_size base (coeff sizes j))) }
{
    let mut row = [0u32; Rq::DEGREE];
    let mut next = [0u32; Rq::DEGREE];
    for j in 0..Rq::DEGREE {
        let taken = divide(sizes[j]);
        row[j] = digits::digit_of(Zq(a[j]).is_larger_than_half(), base, taken.rest);
        next[j] = digits::next_of(base, taken.quotient, taken.rest);
    }
    Taken { row, sizes: next }
}

// The row of digits that the sizes give, with the coefficients' signs. A base that is a power of two divides by a shift, another by a multiplication with its
// reciprocal.
pub fn take_row(a: [u32; 64], base: u32, sizes: [u32; 64]) -> Taken
    requires { 1 < base }
    ensures { (result.row ≡ table 64 (λ j. digit_of base (coeff a j) (coeff sizes j))) × (result.sizes ≡ table 64 (λ j. next_size base (coeff sizes j))) }
{
    // 2^shift is the greatest power of two that divides the base
    let shift = u32::trailing_zeros(base);
    if 1u64 << shift == base as u64 {
        take_row_by(
            a,
            base,
            sizes,
            |size| reciprocal::divide_by_shift(size, base, shift),
        )
    } else {
        let factor = reciprocal::reciprocal(base);
        take_row_by(
            a,
            base,
            sizes,
            |size| reciprocal::divide(size, base, factor),
        )
    }
}

// Document 01: "the digits of one element are 32 rows of 64, rows past the parts zero".
pub fn decompose(a: Rq, base: u32, parts: usize) -> [[u32; 64]; 32]
    requires { (1 < base) × (parts ≤ 32) }
    ensures { result ≡ digit_rows base parts a.coeffs }
{
    let coeffs = a.coeffs;
    let mut sizes = sizes_of(coeffs);
    let mut rows = [[0u32; Rq::DEGREE]; 32];
    for k in 0..parts {
        let taken = take_row(coeffs, base, sizes);
        let row = taken.row;
        let next = taken.sizes;
        rows[k] = row;
        sizes = next;
    }
    rows
}

// The size left over of each coefficient after its digits (document 02, Item 5).
pub fn left_over(a: Rq, base: u32, parts: usize) -> [u32; 64]
    requires { 1 < base }
    ensures { result ≡ left_row base parts a.coeffs }
{
    let coeffs = a.coeffs;
    let mut left = sizes_of(coeffs);
    for k in 0..parts {
        let taken = take_row(coeffs, base, left);
        let next = taken.sizes;
        left = next;
    }
    left
}

// Whether nothing goes on: all sizes are zero.
pub fn is_zero(sizes: [u32; 64]) -> bool
    ensures { result ≡ is_zero sizes }
{
    sizes == [0u32; Rq::DEGREE]
}
