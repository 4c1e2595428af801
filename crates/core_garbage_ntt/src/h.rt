// h_ij = ⟨φ_i, s_j⟩ + ⟨φ_j, s_i⟩ in NTT form: the scratch holds the vectors s_j so, each φ_i is transformed once, all ⟨φ_i, s_j⟩ are stored, and
// the two of each cell are added.
ghost use Rattle.std.specs.Prelude.{◌≡◌, ◌+◌, ◌*◌, ◌≤◌, ◌<◌, length};
ghost use Rattle.math.specs.lists.Table.{table};
ghost use Rattle.math.specs.lists.Part.{splice};
ghost use Rattle.spec_protocol.specs.Parameters.{triangular};
ghost use Rattle.spec_protocol.specs.Formulas.{flat, rows, triangle};
ghost use Rattle.ntt_vectors.specs.NttForm.{ntt_words, ntt_row, AllValues};
ghost use Rattle.core_garbage_ntt.specs.NttLines.{ntt_line, both_ways, with_h, LineRoom, LinesRoom, HalvesRoom, HRoom};

use ntt_transform::table::Twiddles;
use ntt_vectors::vectors;
use ring_rq_matrix;

// Row i of all inner products: the vector at `phi_at`, transformed into the buffer, with the vectors in NTT form.
pub fn line(
    scratch: &mut [u32],
    phi_at: usize,
    n: usize,
    count: usize,
    w: &Twiddles,
    buffer: &mut [u32],
    at: usize,
    out_at: usize,
)
    requires { AllValues scratch.old at (count * n) × LineRoom scratch.old phi_at n count buffer.old at out_at }
    ensures scratch_after { scratch.new ≡ splice scratch.old out_at (flat (table count (ntt_row (ntt_words scratch.old phi_at n) scratch.old at n))) }
    ensures buffer_after { buffer.new ≡ splice buffer.old 0 (ntt_words scratch.old phi_at n) }
{
    vectors::to_ntt_form(scratch, phi_at, n, w, buffer, 0);
    vectors::row(buffer, n, count, w, scratch, at, out_at);
}

// All of them, of r vectors.
pub fn lines(scratch: &mut [u32], phi_at: usize, r: usize, n: usize, at: usize, out_at: usize)
    requires { AllValues scratch.old at (r * n) × LinesRoom scratch.old phi_at r n at out_at }
    ensures { scratch.new ≡ splice scratch.old out_at (flat (rows r r (ntt_line scratch.old phi_at at n))) }
{
    let w = Twiddles::new();
    let mut buffer = [0u32; 12288];
    let mut start = phi_at;
    let mut place = out_at;
    for i in 0..r {
        line(scratch, start, n, r, &w, &mut buffer, at, place);
        start += 64 * n;
        place += 64 * r;
    }
}

// Row i of h: each cell and its mirror image in the square added.
pub fn h_row(scratch: &mut [u32], square: usize, r: usize, i: usize, out_at: usize)
    requires { HalvesRoom scratch.old square r (i + 1) out_at × (i < r) }
    ensures { scratch.new ≡ splice scratch.old out_at (flat (table (i + 1) (both_ways scratch.old square r i))) }
{
    let mut across = ring_rq_matrix::vector_at(square, r, i);
    let mut down = square + 64 * i;
    let mut place = out_at;
    for j in 0..i + 1 {
        let sum = ring_words::load(scratch, across).add(ring_words::load(scratch, down));
        ring_words::store(scratch, place, sum);
        across += 64;
        down += 64 * r;
        place += 64;
    }
}

// All rows.
pub fn fold(scratch: &mut [u32], square: usize, r: usize, out_at: usize)
    requires { HalvesRoom scratch.old square r (triangular r) out_at }
    ensures { scratch.new ≡ splice scratch.old out_at (flat (triangle r (both_ways scratch.old square r))) }
{
    let mut place = out_at;
    for i in 0..r {
        h_row(scratch, square, r, i, place);
        place += 64 * (i + 1);
    }
}

// h of the vectors φ_i in the scratch and the vectors s_i in another slice, with room for the vectors in NTT form from `at` on and for the square behind them.
pub fn compute_h(
    s: &[u32],
    s_at: usize,
    r: usize,
    n: usize,
    scratch: &mut [u32],
    at: usize,
    square: usize,
    phi_at: usize,
    out_at: usize,
)
    requires { (s_at + 64 * (r * n) ≤ length s.now) × HRoom scratch.old r n at square phi_at out_at }
    ensures { scratch.new ≡ with_h scratch.old phi_at s.now s_at r n at square out_at }
{
    let w = Twiddles::new();
    vectors::to_ntt_form(s, s_at, r * n, &w, scratch, at);
    lines(scratch, phi_at, r, n, at, square);
    fold(scratch, square, r, out_at);
}
