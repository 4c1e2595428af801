// g_ij = ⟨s_i, s_j⟩ of r vectors s_i of n elements, row after row.
ghost use Rattle.std.specs.Prelude.{◌≡◌, ◌+◌, ◌*◌, ◌≤◌, ◌<◌, length};
ghost use Rattle.math.specs.lists.Table.{table};
ghost use Rattle.math.specs.lists.Part.{splice};
ghost use Rattle.spec_protocol.specs.Parameters.{triangular};
ghost use Rattle.spec_protocol.specs.Formulas.{flat, triangle};
ghost use Rattle.ring_rq_matrix.specs.Region.{gram};

use ring_rq_matrix::{triangles, vector_at};

// Row i: columns 0 to i.
pub fn g_row(s: &[u32], s_at: usize, n: usize, i: usize, out: &mut [u32], out_at: usize)
    requires { (s_at + 64 * ((i + 1) * n) ≤ length s.now) × (out_at + 64 * (i + 1) ≤ length out.old) × (i < 64) × (n ≤ 64) }
    ensures { out.new ≡ splice out.old out_at (flat (table (i + 1) (gram s.now s_at n i))) }
{
    let row = vector_at(s_at, n, i);
    for j in 0..i + 1 {
        let column = vector_at(s_at, n, j);
        let cell = ring_inner_product::inner_product(s, row, 64, s, column, 64, n);
        ring_words::store(out, out_at + 64 * j, cell);
    }
}

// All rows.
pub fn compute_g(s: &[u32], s_at: usize, r: usize, n: usize, out: &mut [u32], out_at: usize)
    requires { (s_at + 64 * (r * n) ≤ length s.now) × (out_at + 64 * triangular r ≤ length out.old) × (r ≤ 64) × (n ≤ 64) }
    ensures { out.new ≡ splice out.old out_at (flat (triangle r (gram s.now s_at n))) }
{
    for i in 0..r {
        let place = out_at + 64 * triangles::cells(i);
        g_row(s, s_at, n, i, out, place);
    }
}
