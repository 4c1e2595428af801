// Equality of elements and of runs of words.
ghost use Rattle.std.specs.Prelude.{◌≡◌, ◌+◌, ◌≤◌, length};
ghost use Rattle.math.specs.lists.Part.{part};
ghost use Rattle.verifier_common.specs.Work.{equal};

use ring_rq::rq::Rq;

// Whether the `count` words from two places on are the same. Places, since a section is known by its own: ranges would be the same numbers at each call.
#[tactic(auto, using(crate::proofs::Runs::same_runs))]
pub fn same_words(x: &[u32], x_at: usize, y: &[u32], y_at: usize, count: usize) -> bool
    requires { (x_at + count ≤ length x.now) × (y_at + count ≤ length y.now) }
    ensures { result ≡ equal (part x.now x_at count) (part y.now y_at count) }
{
    x[x_at..x_at + count] == y[y_at..y_at + count]
}

// Whether two elements are the same.
#[tactic(auto, using(crate::proofs::Runs::same_lists))]
pub fn same(a: Rq, b: Rq) -> bool
    ensures { result ≡ equal a.coeffs b.coeffs }
{
    a.coeffs == b.coeffs
}
