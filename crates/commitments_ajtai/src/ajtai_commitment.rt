// Commitments to vectors (`AjtaiScheme::commit`): a matrix times each of them.
// A slice is passed whole with the place of its run: contracts speak of places in the whole slice, and a struct of the two would be built anew at each call.
ghost use Rattle.std.specs.Prelude.{◌≡◌, ◌*◌, ◌≤◌};
ghost use Rattle.math.specs.lists.Part.{splice};
ghost use Rattle.commitments_outer.specs.Cells.{Room, commitments_of};

// The commitments to r vectors of n elements, one after the other: t of the vectors s.
pub fn commit_all(
    matrix: &[u32],
    m_at: usize,
    count: usize,
    n: usize,
    vectors: &[u32],
    at: usize,
    r: usize,
    out: &mut [u32],
    out_at: usize,
)
    requires { Room matrix.now m_at (count * n) × Room vectors.now at (r * n) × Room out.old out_at (r * count) × (n ≤ 64) × (count ≤ 64) }
    ensures { out.new ≡ splice out.old out_at (commitments_of matrix.now m_at count n vectors.now at r) }
{
    let step = 64 * n;
    let out_step = 64 * count;
    let mut start = at;
    let mut place = out_at;
    for i in 0..r {
        ring_rq_matrix::matrix_vector(matrix, m_at, count, n, vectors, start, out, place);
        start += step;
        place += out_step;
    }
}
