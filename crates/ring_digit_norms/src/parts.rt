// Squared norms of the two parts of elements (document 02, Item 9): digit 0 and the whole rest, which are not stored.
// A slice is passed whole with the place of its run: contracts speak of places in the whole slice, and a struct of the two would be built anew at each call.
ghost use Rattle.std.specs.Prelude.{◌≡◌, ◌+◌, ◌*◌, ◌≤◌, ◌<◌, ◌^◌, length};
ghost use mathlib.Core.List.{flat_map};
ghost use Rattle.math.specs.lists.Table.{table};
ghost use Rattle.ring_rq.specs.Words.{AtMostQ};
ghost use Rattle.spec_leaves.specs.Ring.{element};
ghost use Rattle.ring_inner_product.specs.Run.{run};
ghost use Rattle.spec_protocol.specs.Formulas.{norm_of, two_parts};
ghost use Rattle.spec_protocol.specs.Conditions.{two_parts_norm};

use ring_rq_digits::digits;
use ring_zq::norms;

// The sum with the squared norms of an element's digit 0 and of its rest added. A rest's size is the one that goes on, and a norm takes sizes alone.
pub fn add_two_parts_norm(sum: u128, a: [u32; 64], base: u32) -> u128
    requires { (1 < base) × (sum + 128 * 2 ^ 64 ≤ 2 ^ 128) × AtMostQ a }
    ensures { (result ≡ sum + two_parts_norm base (element a)) × (result ≤ sum + 128 * 2 ^ 64) }
{
    let taken = digits::take_row(a, base, digits::sizes_of(a));
    let row = taken.row;
    let next = taken.sizes;
    let total = norms::add_norm(sum, &row, 0, 64);
    norms::add_norm(total, &next, 0, 64)
}

// The squared norm of the two parts of the `count` elements from `at` on.
pub fn two_parts_norm(from: &[u32], at: usize, count: usize, base: u32) -> u128
    requires { (at + 64 * count ≤ length from.now) × (1 < base) × (count ≤ 2 ^ 18) }
    ensures { (result ≡ norm_of (flat_map (two_parts base) (table count (run from.now at 64)))) × (result ≤ 128 * count * 2 ^ 64) }
{
    let mut total = 0;
    for m in 0..count {
        let a = ring_words::load(from, at + 64 * m).settled().coeffs;
        total = add_two_parts_norm(total, a, base);
    }
    total
}
