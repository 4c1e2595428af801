// Matrices of elements in lent slices (ring/rq_matrix.rs), and the sums over their cells that the verifier compares (verifier.rs). A triangle is
// the lower half of a symmetric matrix: row i, columns 0 to i, rows rising.
// A slice is passed whole with the place of its run: contracts speak of places in the whole slice, and a struct of the two would be built anew at each call.
#![tactic(auto)]

pub mod triangles;

ghost use Rattle.std.specs.Prelude.{◌≡◌, ◌+◌, ◌*◌, ◌≤◌, ◌<◌, ◌^◌, length};
ghost use Rattle.math.specs.lists.Table.{table};
ghost use Rattle.math.specs.lists.Part.{splice};
ghost use Rattle.spec_leaves.specs.Ring.{words};
ghost use Rattle.ring_inner_product.specs.Run.{run};
ghost use Rattle.spec_protocol.specs.Parameters.{triangular};
ghost use Rattle.spec_protocol.specs.Views.{cell as place_of};
ghost use Rattle.spec_protocol.specs.Formulas.{◌⊗◌, sum, dot, pairs, flat};
ghost use Rattle.ring_rq_matrix.specs.Region.{vector, triangle_at, mirrored_row};

use ring_rq::rq::Rq;

// The index of cell (i, j) among a triangle's cells, mirrored above the diagonal. Port only: nothing calls it.
pub fn cell(i: usize, j: usize) -> usize
    requires { (i ≤ 64) × (j ≤ 64) }
    ensures { result ≡ place_of i j }
{
    if j <= i {
        triangles::cells(i) + j
    } else {
        triangles::cells(j) + i
    }
}

// The place of vector i, of vectors of n elements that stand one after the other.
pub fn vector_at(at: usize, n: usize, i: usize) -> usize
    requires { (at ≤ 2 ^ 62) × (n ≤ 64) × (i ≤ 64) }
    ensures { result ≡ at + 64 * (i * n) }
{
    at + 64 * (i * n)
}

// A matrix of `rows` rows times a vector.
pub fn matrix_vector(
    m: &[u32],
    m_at: usize,
    rows: usize,
    cols: usize,
    v: &[u32],
    v_at: usize,
    out: &mut [u32],
    out_at: usize,
)
    requires { (m_at + 64 * (rows * cols) ≤ length m.now) × (v_at + 64 * cols ≤ length v.now) × (out_at + 64 * rows ≤ length out.old) × (cols ≤ 2 ^ 18) }
    ensures { out.new ≡ splice out.old out_at (flat (table rows (λ k. dot cols (vector m.now m_at cols k) (run v.now v_at 64)))) }
{
    let mut row_at = m_at;
    let mut place = out_at;
    for k in 0..rows {
        ring_words::store(
            out,
            place,
            ring_inner_product::inner_product(m, row_at, 64, v, v_at, 64, cols),
        );
        row_at += 64 * cols;
        place += 64;
    }
}

// Row i of a sum over a symmetric matrix, of the row's cells in x and the factors in y: each product left of the diagonal twice, the diagonal's once.
pub fn mirrored_row(x: &[u32], x_at: usize, y: &[u32], y_at: usize, i: usize) -> Rq
    requires { (x_at + 64 * (i + 1) ≤ length x.now) × (y_at + 64 * (i + 1) ≤ length y.now) × (i ≤ 64) }
    ensures { result.coeffs ≡ words (mirrored_row i (run x.now x_at 64) (run y.now y_at 64)) }
{
    let left = ring_inner_product::inner_product(x, x_at, 64, y, y_at, 64, i);
    let diagonal = ring_words::load(x, x_at + 64 * i).mul(ring_words::load(y, y_at + 64 * i));
    left.add(left).add(diagonal)
}

// Σ x_ij·y_ij over all pairs, of two triangles of r rows.
pub fn sum_of_products(x: &[u32], x_at: usize, y: &[u32], y_at: usize, r: usize) -> Rq
    requires { (x_at + 64 * triangular r ≤ length x.now) × (y_at + 64 * triangular r ≤ length y.now) × (r ≤ 64) }
    ensures { result.coeffs ≡ words (pairs r (λ i j. triangle_at x.now x_at i j ⊗ triangle_at y.now y_at i j)) }
{
    let mut total = Rq::zero();
    let mut row = x_at;
    let mut other = y_at;
    for i in 0..r {
        let next = total.add(mirrored_row(x, row, y, other, i));
        total = next;
        row += 64 * (i + 1);
        other += 64 * (i + 1);
    }
    total
}

// Σ x_ij·c_i·c_j over all pairs (`calculate_gh_ci_cj` of verifier.rs), of a triangle of r rows and r factors.
pub fn sum_of_weighted(x: &[u32], x_at: usize, c: &[u32], c_at: usize, r: usize) -> Rq
    requires { (x_at + 64 * triangular r ≤ length x.now) × (c_at + 64 * r ≤ length c.now) × (r ≤ 64) }
    ensures { result.coeffs ≡ words (pairs r (λ i j. triangle_at x.now x_at i j ⊗ run c.now c_at 64 i ⊗ run c.now c_at 64 j)) }
{
    let mut total = Rq::zero();
    let mut row = x_at;
    let mut place = c_at;
    for i in 0..r {
        let weighted = mirrored_row(x, row, c, c_at, i).mul(ring_words::load(c, place));
        let next = total.add(weighted);
        total = next;
        row += 64 * (i + 1);
        place += 64;
    }
    total
}

// Σ x_ii, of a triangle of r rows.
pub fn diagonal_sum(x: &[u32], x_at: usize, r: usize) -> Rq
    requires { (x_at + 64 * triangular r ≤ length x.now) × (r ≤ 64) }
    ensures { result.coeffs ≡ words (sum r (λ i. triangle_at x.now x_at i i)) }
{
    let mut total = Rq::zero();
    let mut place = x_at;
    for i in 0..r {
        let next = total.add(ring_words::load(x, place));
        total = next;
        place += 64 * ((i + 1) + 1);
    }
    total
}

// Σ ⟨φ_i, z⟩·c_i (`calculate_phi_z_c` of verifier.rs), of r vectors φ_i of n elements.
pub fn sum_of_lines(
    phi: &[u32],
    phi_at: usize,
    z: &[u32],
    z_at: usize,
    c: &[u32],
    c_at: usize,
    r: usize,
    n: usize,
) -> Rq
    requires { (phi_at + 64 * (r * n) ≤ length phi.now) × (z_at + 64 * n ≤ length z.now) × (c_at + 64 * r ≤ length c.now) × (n ≤ 64) }
    ensures { result.coeffs ≡ words (sum r (λ i. dot n (vector phi.now phi_at n i) (run z.now z_at 64) ⊗ run c.now c_at 64 i)) }
{
    let mut total = Rq::zero();
    let mut row = phi_at;
    let mut place = c_at;
    for i in 0..r {
        let line = ring_inner_product::inner_product(phi, row, 64, z, z_at, 64, n).mul(
            ring_words::load(c, place),
        );
        let next = total.add(line);
        total = next;
        row += 64 * n;
        place += 64;
    }
    total
}

// Σ t_ik·c_i for column k, of r rows of `width` elements and r factors.
pub fn column_sum(
    t: &[u32],
    t_at: usize,
    width: usize,
    k: usize,
    c: &[u32],
    c_at: usize,
    r: usize,
) -> Rq
    requires { (t_at + 64 * (r * width) ≤ length t.now) × (c_at + 64 * r ≤ length c.now) × (k < width) × (width ≤ 64) × (r ≤ 64) }
    ensures { result.coeffs ≡ words (sum r (λ i. vector t.now t_at width i k ⊗ run c.now c_at 64 i)) }
{
    ring_inner_product::inner_product(t, t_at + 64 * k, 64 * width, c, c_at, 64, r)
}
