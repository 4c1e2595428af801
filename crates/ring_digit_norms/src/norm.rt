// Squared norms of runs of elements, and of their digits, which are not stored.
// A slice is passed whole with the place of its run: contracts speak of places in the whole slice, and a struct of the two would be built anew at each call.
ghost use Rattle.std.specs.Prelude.{◌≡◌, cond, ◌+◌, ◌*◌, ◌≤◌, ◌<◌, ◌^◌, length};
ghost use Rattle.math.specs.lists.Table.{table};
ghost use Rattle.math.specs.lists.Sum.{Σ};
ghost use Rattle.spec_leaves.specs.Norm.{norm};
ghost use Rattle.spec_leaves.specs.Rq.{is_zero, digit_row, left_row};
ghost use Rattle.ring_inner_product.specs.Run.{run};
ghost use Rattle.spec_protocol.specs.Formulas.{norm_of, digits_of, count_left};

use ring_rq_digits::digits;
use ring_zq::norms;
use spec_leaves::modulus;

// The squared norm of the `count` elements from `at` on.
pub fn elements_norm(from: &[u32], at: usize, count: usize) -> u128
    requires { at + 64 * count ≤ length from.now }
    ensures { (result ≡ norm_of (table count (run from.now at 64))) × (result ≤ 64 * count * 2 ^ 64) }
{
    if modulus::LACK == 1 {
        return norms::norm_of(from, at, 64 * count);
    }
    let mut total = 0;
    for m in 0..count {
        let a = ring_words::load(from, at + 64 * m).settled().coeffs;
        total = norms::add_norm(total, &a, 0, 64);
    }
    total
}

// The squared norm of the digits of cells, and how many of the cells have a coefficient with something left (document 02, Item 5).
#[derive(Clone, Copy)]
pub struct DigitsNorm {
    pub norm: u128,
    pub cells_left: usize,
}

// The sum with one more cell: the squared norm of its digits added row by row, and the cell counted where a size is left after the last row.
pub fn add_digits_norm(sum: DigitsNorm, a: [u32; 64], base: u32, parts: usize) -> DigitsNorm
    requires { (1 < base) × (sum.norm + 64 * parts * 2 ^ 64 ≤ 2 ^ 128) × (sum.cells_left + 1 < 2 ^ 64) }
    ensures norm_value { (result.norm ≡ sum.norm + Σ parts (λ q. norm (digit_row base a q))) × (result.norm ≤ sum.norm + 64 * parts * 2 ^ 64) }
    ensures cells_left_value { result.cells_left ≡ sum.cells_left + cond (is_zero (left_row base parts a)) 0 1 }
{
    let mut total = sum.norm;
    let mut sizes = digits::sizes_of(a);
    for k in 0..parts {
        // from where nothing goes on, each row is zero
        if digits::is_zero(sizes) {
            return DigitsNorm {
                norm: total,
                cells_left: sum.cells_left,
            };
        }
        let taken = digits::take_row(a, base, sizes);
        let row = taken.row;
        let next = taken.sizes;
        total = norms::add_norm(total, &row, 0, 64);
        sizes = next;
    }
    let cells_left = if digits::is_zero(sizes) {
        sum.cells_left
    } else {
        sum.cells_left + 1
    };
    DigitsNorm {
        norm: total,
        cells_left,
    }
}

// The squared norm of the digits of the `cells` elements from `at` on, and how many of these have something left.
pub fn digits_norm(from: &[u32], at: usize, cells: usize, base: u32, parts: usize) -> DigitsNorm
    requires { (at + 64 * cells ≤ length from.now) × (1 < base) × (parts ≤ 32) × (cells ≤ 2 ^ 18) }
    ensures norm_value { (result.norm ≡ norm_of (digits_of base parts (table cells (run from.now at 64)))) × (result.norm ≤ 2048 * cells * 2 ^ 64) }
    ensures cells_left_value { result.cells_left ≡ count_left base parts (table cells (run from.now at 64)) }
{
    let mut total = DigitsNorm {
        norm: 0,
        cells_left: 0,
    };
    for c in 0..cells {
        let a = ring_words::load(from, at + 64 * c).settled().coeffs;
        total = add_digits_norm(total, a, base, parts);
    }
    total
}
