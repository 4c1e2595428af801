// The garbage polynomials of vectors that the scratch holds in NTT form.
ghost use Rattle.std.specs.Prelude.{◌≡◌, ◌+◌, ◌*◌, ◌≤◌, ◌<◌, length};
ghost use Rattle.math.specs.lists.Table.{table};
ghost use Rattle.math.specs.lists.Part.{part, splice};
ghost use Rattle.spec_protocol.specs.Parameters.{triangular};
ghost use Rattle.spec_protocol.specs.Formulas.{flat, triangle};
ghost use Rattle.ntt_vectors.specs.NttForm.{AllValues, RowRoom};
ghost use Rattle.core_garbage_ntt.specs.NttGarbage.{ntt_gram};

use ntt_transform::table::Twiddles;
use ntt_vectors::vectors;

// Row i of g: vector i, whose values are copied to the buffer, with the vectors 0 to i.
pub fn g_row(
    scratch: &mut [u32],
    at: usize,
    n: usize,
    i: usize,
    w: &Twiddles,
    buffer: &mut [u32],
    out_at: usize,
)
    requires { AllValues scratch.old at ((i + 1) * n) × RowRoom scratch.old at n (i + 1) out_at × (192 * n ≤ length buffer.old) × (n ≤ 64) × (i < 64) }
    ensures scratch_after { scratch.new ≡ splice scratch.old out_at (flat (table (i + 1) (ntt_gram scratch.old at n i))) }
    ensures buffer_after { buffer.new ≡ splice buffer.old 0 (part scratch.old (at + 192 * (i * n)) (192 * n)) }
{
    ring_words::copy(buffer, 0, scratch, at + 192 * (i * n), 192 * n);
    vectors::row(buffer, n, i + 1, w, scratch, at, out_at);
}

// All rows of g, of r vectors of n elements whose values stand from `at` on.
pub fn compute_g(scratch: &mut [u32], at: usize, r: usize, n: usize, out_at: usize)
    requires { AllValues scratch.old at (r * n) × (at + 192 * (r * n) ≤ out_at) × (out_at + 64 * triangular r ≤ length scratch.old) × (r ≤ 64) × (n ≤ 64) }
    ensures { scratch.new ≡ splice scratch.old out_at (flat (triangle r (ntt_gram scratch.old at n))) }
{
    let w = Twiddles::new();
    let mut buffer = [0u32; 12288];
    let mut place = out_at;
    for i in 0..r {
        g_row(scratch, at, n, i, &w, &mut buffer, place);
        place += 64 * (i + 1);
    }
}
