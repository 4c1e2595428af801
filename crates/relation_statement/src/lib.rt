// The left side of one constraint (`calculate_b_constraint` of relation/statement.rs): Σ a_ij·⟨s_i, s_j⟩ + Σ ⟨φ_i, s_i⟩, of a triangle a and r vectors
// φ_i and s_i of n elements.
// A slice is passed whole with the place of its run: contracts speak of places in the whole slice, and a struct of the two would be built anew at each call.
#![tactic(auto)]

ghost use Rattle.std.specs.Prelude.{◌≡◌, ◌+◌, ◌*◌, ◌≤◌, ◌<◌, length};
ghost use Rattle.math.specs.algebra.Ops.{form};
ghost use Rattle.spec_leaves.specs.Ring.{RqOps, words};
ghost use Rattle.ring_inner_product.specs.Run.{run};
ghost use Rattle.spec_protocol.specs.Parameters.{triangular};
ghost use Rattle.spec_protocol.specs.Formulas.{◌⊗◌, sum, dot, pairs};
ghost use Rattle.ring_rq_matrix.specs.Region.{vector, gram, triangle_at, mirrored_row};

use ring_rq::rq::Rq;
use ring_rq_matrix::vector_at;

// The terms of row i left of the diagonal, of a's row from `row` on.
fn left_of_diagonal(a: &[u32], row: usize, s: &[u32], s_at: usize, n: usize, i: usize) -> Rq
    requires { (row + 64 * (i + 1) ≤ length a.now) × (s_at + 64 * ((i + 1) * n) ≤ length s.now) × (i < 64) × (n ≤ 64) }
    ensures { result.coeffs ≡ words (dot i (run a.now row 64) (gram s.now s_at n i)) }
{
    let s_i = vector_at(s_at, n, i);
    let mut total = Rq::zero();
    let mut place = row;
    let mut s_j = s_at;
    for j in 0..i {
        let product = ring_inner_product::inner_product(s, s_i, 64, s, s_j, 64, n);
        let next = total.add(ring_words::load(a, place).mul(product));
        total = next;
        place += 64;
        s_j += 64 * n;
    }
    total
}

// Row i: each term left of the diagonal twice, the diagonal's once.
fn constraint_row(a: &[u32], row: usize, s: &[u32], s_at: usize, n: usize, i: usize) -> Rq
    requires { (row + 64 * (i + 1) ≤ length a.now) × (s_at + 64 * ((i + 1) * n) ≤ length s.now) × (i < 64) × (n ≤ 64) }
    ensures { result.coeffs ≡ words (mirrored_row i (run a.now row 64) (gram s.now s_at n i)) }
{
    let left = left_of_diagonal(a, row, s, s_at, n, i);
    let s_i = vector_at(s_at, n, i);
    let norm = ring_inner_product::inner_product(s, s_i, 64, s, s_i, 64, n);
    let diagonal = ring_words::load(a, row + 64 * i).mul(norm);
    left.add(left).add(diagonal)
}

// Σ a_ij·⟨s_i, s_j⟩.
pub fn quadratic(a: &[u32], a_at: usize, s: &[u32], s_at: usize, r: usize, n: usize) -> Rq
    requires { (a_at + 64 * triangular r ≤ length a.now) × (s_at + 64 * (r * n) ≤ length s.now) × (r ≤ 64) × (n ≤ 64) }
    ensures { result.coeffs ≡ words (pairs r (λ i j. triangle_at a.now a_at i j ⊗ gram s.now s_at n i j)) }
{
    let mut total = Rq::zero();
    let mut row = a_at;
    for i in 0..r {
        let next = total.add(constraint_row(a, row, s, s_at, n, i));
        total = next;
        row += 64 * (i + 1);
    }
    total
}

// Σ ⟨φ_i, s_i⟩: one inner product over all elements of the vectors.
pub fn line(phi: &[u32], phi_at: usize, s: &[u32], s_at: usize, r: usize, n: usize) -> Rq
    requires { (phi_at + 64 * (r * n) ≤ length phi.now) × (s_at + 64 * (r * n) ≤ length s.now) × (r ≤ 64) × (n ≤ 64) }
    ensures { result.coeffs ≡ words (sum r (λ i. dot n (vector phi.now phi_at n i) (vector s.now s_at n i))) }
{
    ring_inner_product::inner_product(phi, phi_at, 64, s, s_at, 64, r * n)
}

// The left side of a constraint. Port only: nothing calls it.
pub fn calculate_b_constraint(
    s: &[u32],
    s_at: usize,
    a: &[u32],
    a_at: usize,
    phi: &[u32],
    phi_at: usize,
    r: usize,
    n: usize,
) -> Rq
    requires { (s_at + 64 * (r * n) ≤ length s.now) × (a_at + 64 * triangular r ≤ length a.now) × (phi_at + 64 * (r * n) ≤ length phi.now) × (r ≤ 64) × (n ≤ 64) }
    ensures { result.coeffs ≡ words (form RqOps r n (triangle_at a.now a_at) (vector phi.now phi_at n) (vector s.now s_at n)) }
{
    quadratic(a, a_at, s, s_at, r, n).add(line(phi, phi_at, s, s_at, r, n))
}
