// The inner product of elements with digits.
// A slice is passed whole with the place of its run: contracts speak of places in the whole slice, and a struct of the two would be built anew at each call.
ghost use Rattle.std.specs.Prelude.{◌≡◌};
ghost use Rattle.math.specs.algebra.Ops.{dot};
ghost use Rattle.spec_leaves.specs.Ring.{RqOps, words};
ghost use Rattle.ring_inner_product.specs.Run.{Run, run};
ghost use Rattle.ring_digit_products.specs.Forms.{DigitForms};

use crate::small;
use ring_rq::rq::Rq;
use ring_rq_product::{product, sums};

// Half of the largest base whose products are summed without folding.
pub const LARGEST: u64 = 32768;

// The inner product of n elements from `at` on with the digits v, whose forms are made before.
pub fn inner_product(matrix: &[u32], at: usize, v: &[u32], forms: &[u64], half: u64, n: usize) -> Rq
    requires { Run matrix.now at 64 n × Run v.now 0 64 n × DigitForms forms.now half v.now n }
    ensures { result.coeffs ≡ words (dot RqOps n (run matrix.now at 64) (run v.now 0 64)) }
{
    if LARGEST < half {
        return ring_inner_product::inner_product(matrix, at, 64, v, 0, 64, n);
    }
    let mut totals = [0u64; Rq::DEGREE];
    for m in 0..n {
        let b = ring_words::load(matrix, at + 64 * m).coeffs;
        let x = product::reverse(b);
        let start = small::complement(&x, half);
        let next = small::add_products(totals, &x, forms, 128 * m, start);
        totals = next;
    }
    Rq {
        coeffs: sums::reduce(totals),
    }
}
