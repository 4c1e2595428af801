// Inner products and linear combinations of elements in lent slices (core/inner_product.rs), one call per scalar kind. A run of elements is given
// by its slice, the place of its first element and the step from one to the next, in words.
// A slice is passed whole with the place of its run: contracts speak of places in the whole slice, and a struct of the two would be built anew at each call.
#![tactic(auto)]

ghost use Rattle.std.specs.Prelude.{◌≡◌, ◌+◌, ◌*◌, ◌^◌, ◌<◌, ◌≤◌, length, get_or};
ghost use Rattle.math.specs.algebra.Ops.{sum, dot};
ghost use Rattle.spec_leaves.specs.Ring.{RqOps, words, scale};
ghost use Rattle.ring_inner_product.specs.Run.{Run, run, further};

use ring_rq::rq::Rq;
use ring_rq_product::sums;

// A run of elements in a slice: the place of the first, the step from one to the next, both in words, and how many there are.
#[derive(Clone, Copy)]
pub struct Strided {
    pub at: usize,
    pub step: usize,
    pub count: usize,
}

impl Strided {
    // The run of the elements that stand c elements further on.
    pub fn further(self, c: usize) -> Strided
        requires { self.at + 64 * c < 2 ^ 64 }
        ensures { result ≡ further self c }
    {
        Strided {
            at: self.at + 64 * c,
            step: self.step,
            count: self.count,
        }
    }
}

// The inner product of two runs of n elements.
pub fn inner_product(
    x: &[u32],
    x_at: usize,
    x_step: usize,
    y: &[u32],
    y_at: usize,
    y_step: usize,
    n: usize,
) -> Rq
    requires { Run x.now x_at x_step n × Run y.now y_at y_step n }
    ensures { result.coeffs ≡ words (dot RqOps n (run x.now x_at x_step) (run y.now y_at y_step)) }
{
    let mut totals = [0u64; Rq::DEGREE];
    let mut i = x_at;
    let mut j = y_at;
    for m in 0..n {
        let a = ring_words::load(x, i).coeffs;
        let b = ring_words::load(y, j).coeffs;
        let next = sums::add_product(totals, a, b);
        totals = next;
        i += x_step;
        j += y_step;
    }
    Rq {
        coeffs: sums::reduce(totals),
    }
}

// The linear combination of a run of n elements with n numbers.
pub fn linear_combination(
    x: &[u32],
    x_at: usize,
    x_step: usize,
    factors: &[u32],
    at: usize,
    n: usize,
) -> Rq
    requires { Run x.now x_at x_step n × (at + n ≤ length factors.now) }
    ensures { result.coeffs ≡ words (sum RqOps n (λ m. scale (run x.now x_at x_step m) (get_or factors.now (at + m) 0))) }
{
    let mut totals = [0u64; Rq::DEGREE];
    let mut i = x_at;
    for m in 0..n {
        sums::add_scaled(&mut totals, x, i, factors[at + m]);
        i += x_step;
    }
    Rq {
        coeffs: sums::reduce(totals),
    }
}
