// The digits of an element of a slice, a row at a time from the sizes that go on.
// A slice is passed whole with the place of its run: contracts speak of places in the whole slice, and a struct of the two would be built anew at each call.
ghost use Rattle.std.specs.Prelude.{◌≡◌, ℕ, ◌+◌, ◌*◌, ◌≤◌, ◌<◌, length};
ghost use Rattle.math.specs.lists.Table.{table};
ghost use Rattle.math.specs.lists.Part.{part, splice};
ghost use Rattle.spec_leaves.specs.Ring.{RqOps, element};
ghost use Rattle.spec_protocol.specs.Formulas.{flat, digit_element};

use crate::vector::zero;
use ring_rq::rq::Rq;
use ring_rq_digits::digits;

// The digits of the element at `at`, lowest first, as elements from `to_at` on, up to `parts`. Those from where nothing goes on are zero and are not stored; how many are
// stored is the answer.
pub fn decompose_used(
    from: &[u32],
    at: usize,
    base: u32,
    parts: usize,
    to: &mut [u32],
    to_at: usize,
) -> usize
    requires { (at + 64 ≤ length from.now) × (to_at + 64 * parts ≤ length to.old) × (1 < base) }
    ensures upper_bound { (result ≤ parts) × (to.new ≡ splice to.old to_at (flat (table result (digit_element base (element (part from.now at 64)))))) }
    ensures by_index { (k : ℕ) → result ≤ k → k < parts → digit_element base (element (part from.now at 64)) k ≡ RqOps.nil }
{
    let a = ring_words::load(from, at).settled().coeffs;
    let mut sizes = digits::sizes_of(a);
    let mut place = to_at;
    for k in 0..parts {
        if digits::is_zero(sizes) {
            return k;
        }
        let taken = digits::take_row(a, base, sizes);
        let row = taken.row;
        let next = taken.sizes;
        ring_words::store(to, place, Rq { coeffs: row });
        sizes = next;
        place += 64;
    }
    parts
}

// The digits of the element at `at`, lowest first, as `parts` elements from `to_at` on.
pub fn decompose_to(from: &[u32], at: usize, base: u32, parts: usize, to: &mut [u32], to_at: usize)
    requires { (at + 64 ≤ length from.now) × (to_at + 64 * parts ≤ length to.old) × (1 < base) }
    ensures { to.new ≡ splice to.old to_at (flat (table parts (digit_element base (element (part from.now at 64))))) }
{
    let used = decompose_used(from, at, base, parts, to, to_at);
    zero(to, to_at + 64 * used, parts - used);
}
