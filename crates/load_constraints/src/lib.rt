// The left sides of all constraints of a job, added up where b0 and b stand: each ⟨s_i, s_j⟩ is worked out once and weighed into every constraint.
#![tactic(auto)]

pub mod products;
pub mod sums;

ghost use Rattle.std.specs.Prelude.{◌≡◌, ◌+◌, ◌*◌, ◌≤◌, ◌<◌, length};
ghost use Rattle.spec_leaves.specs.Ring.{words};
ghost use Rattle.ring_inner_product.specs.Run.{run};
ghost use Rattle.spec_protocol.specs.Parameters.{triangular};
ghost use Rattle.load_constraints.specs.Sums.{Placed, Reduced, terms, plus};
ghost use Rattle.load_constraints.specs.Terms.{plus_both, weight_of, rows_of, left_of};

use crate::sums::Target;
use ring_rq::rq::Rq;
use ring_rq_matrix::{triangles, vector_at};

// What cell (i, j) of a triangle is multiplied with, j at most i: ⟨s_i, s_j⟩, twice off the diagonal.
fn weight(s: &[u32], s_at: usize, n: usize, i: usize, j: usize) -> Rq
    requires { (s_at + 64 * ((i + 1) * n) ≤ length s.now) × (i < 64) × (j ≤ i) × (n ≤ 64) }
    ensures { result.coeffs ≡ words (weight_of s.now s_at n i j) }
{
    let s_i = vector_at(s_at, n, i);
    let s_j = vector_at(s_at, n, j);
    let product = ring_inner_product::inner_product(s, s_i, 64, s, s_j, 64, n);
    if j < i { product.add(product) } else { product }
}

// Row i of every triangle of m cells, from cell `row` on.
fn add_row(
    job: &mut [u32],
    t: Target,
    base0: usize,
    base: usize,
    m: usize,
    s: &[u32],
    s_at: usize,
    n: usize,
    i: usize,
    row: usize,
)
    requires { Placed job.old t base0 base m × Reduced job.old t × (row + (i + 1) ≤ m) × (s_at + 64 * ((i + 1) * n) ≤ length s.now) × (i < 64) × (n ≤ 64) }
    ensures { job.new ≡ plus_both job.old t base0 base (λ at. terms job.old at m row (i + 1) (weight_of s.now s_at n i)) }
{
    for j in 0..i + 1 {
        let w = weight(s, s_at, n, i, j);
        sums::add_term(job, t, base0, base, m, row + j, w);
    }
}

// All rows of every triangle.
fn add_triangle(
    job: &mut [u32],
    t: Target,
    base0: usize,
    base: usize,
    m: usize,
    s: &[u32],
    s_at: usize,
    r: usize,
    n: usize,
)
    requires { Placed job.old t base0 base m × Reduced job.old t × (m ≡ triangular r) × (s_at + 64 * (r * n) ≤ length s.now) × (r ≤ 64) × (n ≤ 64) }
    ensures { job.new ≡ plus_both job.old t base0 base (λ at. rows_of job.old at m s.now s_at n r) }
{
    let mut row = 0;
    for i in 0..r {
        add_row(job, t, base0, base, m, s, s_at, n, i, row);
        row += i + 1;
    }
}

// Every vector's elements, m of them, with the witness's, one after the other.
fn add_terms(
    job: &mut [u32],
    t: Target,
    base0: usize,
    base: usize,
    m: usize,
    s: &[u32],
    s_at: usize,
)
    requires { Placed job.old t base0 base m × Reduced job.old t × (s_at + 64 * m ≤ length s.now) }
    ensures { job.new ≡ plus_both job.old t base0 base (λ at. terms job.old at m 0 m (run s.now s_at 64)) }
{
    for e in 0..m {
        sums::add_term(
            job,
            t,
            base0,
            base,
            m,
            e,
            ring_words::load(s, s_at + 64 * e),
        );
    }
}

// The same for b0 alone, and then for b with the witness's elements in NTT form.
fn add_line(job: &mut [u32], t: Target, base0: usize, base: usize, m: usize, s: &[u32], s_at: usize)
    requires { Placed job.old t base0 base m × Reduced job.old t × (s_at + 64 * m ≤ length s.now) }
    ensures { job.new ≡ plus_both job.old t base0 base (λ at. terms job.old at m 0 m (run s.now s_at 64)) }
{
    let b0_at = t.b0_at;
    let l = t.l;
    let b_at = t.b_at;
    let k = t.k;
    let numbers = Target {
        b0_at,
        l,
        b_at,
        k: 0,
    };
    add_terms(job, numbers, base0, base, m, s, s_at);
    products::add_products(job, base, m, b_at, k, s, s_at);
}

// Both: triangles from `a0` and `a` on, vectors from `phi0` and `phi` on.
pub fn add_left(
    job: &mut [u32],
    t: Target,
    a0: usize,
    phi0: usize,
    a: usize,
    phi: usize,
    s: &[u32],
    s_at: usize,
    r: usize,
    n: usize,
)
    requires { Placed job.old t a0 a (triangular r) × Placed job.old t phi0 phi (r * n) × Reduced job.old t × (s_at + 64 * (r * n) ≤ length s.now) × (r ≤ 16) × (n ≤ 64) }
    ensures { job.new ≡ plus job.old t (left_of job.old a0 phi0 s.now s_at r n) (left_of job.old a phi s.now s_at r n) }
{
    add_triangle(job, t, a0, a, triangles::cells(r), s, s_at, r, n);
    add_line(job, t, phi0, phi, r * n, s, s_at);
}
