// h_ij = ⟨φ_i, s_j⟩ + ⟨φ_j, s_i⟩, not halved, of r vectors φ_i and s_i of n elements, row after row. The vectors φ_i and the rows lie in one slice.
ghost use Rattle.std.specs.Prelude.{◌≡◌, ◌+◌, ◌*◌, ◌≤◌, length};
ghost use Rattle.math.specs.lists.Table.{table};
ghost use Rattle.math.specs.lists.Part.{splice};
ghost use Rattle.spec_leaves.specs.Ring.{words};
ghost use Rattle.ring_inner_product.specs.Run.{run};
ghost use Rattle.spec_protocol.specs.Formulas.{◌⊕◌, dot, flat, triangle};
ghost use Rattle.core_garbage_polynomials.specs.Garbage.{h_of, RowFits, TriangleFits};

use ring_rq::rq::Rq;
use ring_rq_matrix::{triangles, vector_at};

// One cell, from the places of its four vectors.
pub fn h_cell(
    phi: &[u32],
    phi_i: usize,
    phi_j: usize,
    s: &[u32],
    s_i: usize,
    s_j: usize,
    n: usize,
) -> Rq
    requires { (phi_i + 64 * n ≤ length phi.now) × (phi_j + 64 * n ≤ length phi.now) × (s_i + 64 * n ≤ length s.now) × (s_j + 64 * n ≤ length s.now) × (n ≤ 64) }
    ensures { result.coeffs ≡ words (dot n (run phi.now phi_i 64) (run s.now s_j 64) ⊕ dot n (run phi.now phi_j 64) (run s.now s_i 64)) }
{
    let first = ring_inner_product::inner_product(phi, phi_i, 64, s, s_j, 64, n);
    let second = ring_inner_product::inner_product(phi, phi_j, 64, s, s_i, 64, n);
    first.add(second)
}

// Row i: columns 0 to i.
pub fn h_row(
    s: &[u32],
    s_at: usize,
    n: usize,
    i: usize,
    scratch: &mut [u32],
    phi_at: usize,
    out_at: usize,
)
    requires { RowFits s.now s_at n i scratch.old phi_at out_at }
    ensures { scratch.new ≡ splice scratch.old out_at (flat (table (i + 1) (h_of scratch.old phi_at s.now s_at n i))) }
{
    let s_i = vector_at(s_at, n, i);
    let phi_i = vector_at(phi_at, n, i);
    for j in 0..i + 1 {
        let s_j = vector_at(s_at, n, j);
        let phi_j = vector_at(phi_at, n, j);
        let cell = h_cell(scratch, phi_i, phi_j, s, s_i, s_j, n);
        ring_words::store(scratch, out_at + 64 * j, cell);
    }
}

// All rows.
pub fn compute_h(
    s: &[u32],
    s_at: usize,
    r: usize,
    n: usize,
    scratch: &mut [u32],
    phi_at: usize,
    out_at: usize,
)
    requires { TriangleFits s.now s_at r n scratch.old phi_at out_at }
    ensures { scratch.new ≡ splice scratch.old out_at (flat (triangle r (h_of scratch.old phi_at s.now s_at n))) }
{
    for i in 0..r {
        let place = out_at + 64 * triangles::cells(i);
        h_row(s, s_at, n, i, scratch, phi_at, place);
    }
}
