// The rows of A with z for all transcripts of a call (document 02, Item 11): each row is transformed once, and taken with the z of every transcript,
// which is in NTT form at the start of its window.
ghost use Rattle.std.specs.Prelude.{◌≡◌, true, false, ◌+◌, ◌*◌, ◌≤◌, ◌<◌, length, get_or};
ghost use Rattle.spec_protocol.specs.Parameters.{parameters};
ghost use Rattle.spec_protocol.specs.Unchanged.{Unchanged};
ghost use Rattle.spec_protocol.specs.Many.{many_need, transcript_part, AllRowsDone};
ghost use Rattle.relation_env_params.specs.Parameters.{parameters_of};
ghost use Rattle.ntt_vectors.specs.NttForm.{AllValues};
ghost use Rattle.verifier_common.specs.Work.{Received};
ghost use Rattle.verify_many_windows.specs.Rowable.{Rowable};
ghost use Rattle.verify_many_rows.specs.NttForm.{shares, z_for, NttFormZ, AllZ, product_for, Valued, RowMade};

use layout_sizes::{buffers, names, offsets};
use ntt_transform::table::Twiddles;
use ntt_vectors::vectors;
use relation_env_params::env_params::EnvironmentParameters;
use ring_words;
use verify_many_admission::bounds;

// Whether the rows of A are taken in NTT form.
pub fn shared(params: EnvironmentParameters, count: usize) -> bool
    ensures { result ≡ shares (parameters_of params) count }
{
    if count < 2 {
        return false;
    }
    if params.kappa < 2 {
        return false;
    }
    5 <= params.rank
}

// The values of z of transcript m, where it passes.
fn one_to_ntt_form(
    params: EnvironmentParameters,
    count: usize,
    m: usize,
    pass: bool,
    transcripts: &[u32],
    w: &Twiddles,
    scratch: &mut [u32],
    start: usize,
)
    requires in_range { (m < count) × (count ≤ 8) × (start + 192 * params.rank ≤ length scratch.old) }
    requires received { pass ≡ true → Received (transcript_part (parameters_of params) count transcripts.now m) params }
    ensures scratch_after { scratch.new ≡ z_for (parameters_of params) transcripts.now count m start pass scratch.old }
    ensures ntt_form_z { pass ≡ true → NttFormZ (parameters_of params) transcripts.now count m start scratch.new }
{
    if pass {
        let z_at = offsets::of_transcript(params, names::Z);
        let b = bounds::transcript_bounds(transcripts.len(), params, count, m);
        let from = b.from;
        let to = b.to;
        vectors::to_ntt_form(&transcripts[from..to], z_at, params.rank, w, scratch, start);
    }
}

// The values of z of every transcript that passes, each at the start of its window.
fn all_to_ntt_form(
    job: &[u32],
    params: EnvironmentParameters,
    count: usize,
    passes: [bool; 8],
    transcripts: &[u32],
    w: &Twiddles,
    scratch: &mut [u32],
)
    requires rowable { Rowable job.now transcripts.now count (λ m. get_or passes m false) (length scratch.old) params }
    requires all_rows_done { AllRowsDone job.now count (λ m. get_or passes m false) transcripts.now scratch.old 0 }
    ensures all_rows_done_2 { AllRowsDone job.now count (λ m. get_or passes m false) transcripts.now scratch.new 0 }
    ensures all_z { AllZ job.now count (λ m. get_or passes m false) transcripts.now scratch.new }
    ensures unchanged { Unchanged (many_need (parameters job.now) count) scratch.old scratch.new }
{
    let need = buffers::scratch_length(params);
    let mut start = 0;
    for m in 0..count {
        let pass = passes[m];
        one_to_ntt_form(params, count, m, pass, transcripts, w, scratch, start);
        start += need;
    }
}

// The product of a row in NTT form with the values in one window, where its transcript passes.
fn store_product(
    values: &[u32],
    n: usize,
    pass: bool,
    w: &Twiddles,
    scratch: &mut [u32],
    start: usize,
    place: usize,
)
    requires values { AllValues values.now 0 n × (n ≤ 64) × (place + 64 ≤ length scratch.old) }
    requires all_values { pass ≡ true → AllValues scratch.old start n }
    ensures { scratch.new ≡ product_for values.now n start place pass scratch.old }
{
    if pass {
        let product = vectors::inner_product(values, 0, scratch, start, n, w);
        ring_words::store(scratch, place, product);
    }
}

// One row of A with z of every transcript that passes.
fn row_of_all(
    job: &[u32],
    params: EnvironmentParameters,
    row: usize,
    count: usize,
    passes: [bool; 8],
    w: &Twiddles,
    scratch: &mut [u32],
)
    requires { Valued job.now count (λ m. get_or passes m false) scratch.old (length scratch.old) params × (row < params.kappa) }
    ensures row_made { RowMade job.now count (λ m. get_or passes m false) row scratch.old scratch.new }
    ensures unchanged { Unchanged (many_need (parameters job.now) count) scratch.old scratch.new }
{
    let n = params.rank;
    let need = buffers::scratch_length(params);
    let row_at = offsets::of_job(params, names::MATRIX_A) + 64 * (row * n);
    let mut values = [0u32; 12288];
    vectors::to_ntt_form(job, row_at, n, w, &mut values, 0);
    let mut start = 0;
    for m in 0..count {
        let pass = passes[m];
        let place = start + need - 4096 + 64 * row;
        store_product(&values, n, pass, w, scratch, start, place);
        start += need;
    }
}

// The rows of A one after another.
pub fn rows_of_a(
    job: &[u32],
    params: EnvironmentParameters,
    count: usize,
    passes: [bool; 8],
    transcripts: &[u32],
    scratch: &mut [u32],
)
    requires rowable { Rowable job.now transcripts.now count (λ m. get_or passes m false) (length scratch.old) params }
    requires all_rows_done { AllRowsDone job.now count (λ m. get_or passes m false) transcripts.now scratch.old 0 }
    ensures all_rows_done_2 { AllRowsDone job.now count (λ m. get_or passes m false) transcripts.now scratch.new (parameters job.now).κ }
    ensures unchanged { Unchanged (many_need (parameters job.now) count) scratch.old scratch.new }
{
    let w = Twiddles::new();
    all_to_ntt_form(job, params, count, passes, transcripts, &w, scratch);
    for row in 0..params.kappa {
        row_of_all(job, params, row, count, passes, &w, scratch);
    }
}
