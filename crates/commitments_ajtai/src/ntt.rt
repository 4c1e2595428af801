// t_i = A·s_i of vectors s_i that the scratch holds in NTT form: each row of A is transformed once, and gives one element of each t_i.
// A slice is passed whole with the place of its run: contracts speak of places in the whole slice, and a struct of the two would be built anew at each call.
ghost use Rattle.std.specs.Prelude.{◌≡◌, ◌+◌, ◌*◌, ◌≤◌, ◌<◌, length};
ghost use Rattle.math.specs.lists.Part.{splice};
ghost use Rattle.spec_protocol.specs.Formulas.{flat, rows};
ghost use Rattle.ntt_vectors.specs.NttForm.{ntt_row, NttForm, AllValues};
ghost use Rattle.commitments_ajtai.specs.Spread.{spread, ntt_t, with_t, ColumnRoom, ColumnsRoom};

use ntt_transform::table::Twiddles;
use ntt_vectors::vectors;

// The inner products of a vector in NTT form with `count` vectors that the scratch holds so, stored a step apart.
pub fn column(
    v: &[u32],
    n: usize,
    count: usize,
    w: &Twiddles,
    scratch: &mut [u32],
    at: usize,
    out_at: usize,
    step: usize,
)
    requires { AllValues v.now 0 n × AllValues scratch.old at (count * n) × ColumnRoom scratch.old n count at out_at step }
    ensures { scratch.new ≡ spread scratch.old out_at step count (ntt_row v.now scratch.old at n) }
{
    let mut place = at;
    let mut to = out_at;
    for k in 0..count {
        let e = vectors::inner_product(v, 0, scratch, place, n, w);
        ring_words::store(scratch, to, e);
        place += 192 * n;
        to += step;
    }
}

// All columns, of the rows of a matrix.
pub fn columns(
    matrix: &[u32],
    m_at: usize,
    width: usize,
    n: usize,
    r: usize,
    scratch: &mut [u32],
    at: usize,
    out_at: usize,
)
    requires { (m_at + 64 * (width * n) ≤ length matrix.now) × AllValues scratch.old at (r * n) × ColumnsRoom scratch.old width n r at out_at }
    ensures { scratch.new ≡ splice scratch.old out_at (flat (rows r width (ntt_t matrix.now m_at scratch.old at n))) }
{
    let w = Twiddles::new();
    let mut buffer = [0u32; 12288];
    let mut start = m_at;
    let mut place = out_at;
    for k in 0..width {
        vectors::to_ntt_form(matrix, start, n, &w, &mut buffer, 0);
        column(&buffer, n, r, &w, scratch, at, place, 64 * width);
        start += 64 * n;
        place += 64;
    }
}

// t of vectors in another slice, whose values stay from `at` on.
pub fn t_of(
    matrix: &[u32],
    m_at: usize,
    width: usize,
    n: usize,
    s: &[u32],
    s_at: usize,
    r: usize,
    scratch: &mut [u32],
    at: usize,
    out_at: usize,
)
    requires { (m_at + 64 * (width * n) ≤ length matrix.now) × (s_at + 64 * (r * n) ≤ length s.now) × ColumnsRoom scratch.old width n r at out_at }
    ensures scratch_after { scratch.new ≡ with_t scratch.old matrix.now m_at width n s.now s_at r at out_at }
    ensures ntt_form { NttForm scratch.new at s.now s_at (r * n) }
{
    let w = Twiddles::new();
    vectors::to_ntt_form(s, s_at, r * n, &w, scratch, at);
    columns(matrix, m_at, width, n, r, scratch, at, out_at);
}
