// The digits of t, g and h of each transcript in NTT form at the start of its window of the scratch.
ghost use Rattle.std.specs.Prelude.{◌≡◌, true, false, ◌+◌, ◌*◌, ◌≤◌, ◌<◌, length, get_or};
ghost use Rattle.math.specs.lists.Table.{table};
ghost use Rattle.math.specs.lists.Part.{splice};
ghost use Rattle.spec_protocol.specs.Parameters.{parameters};
ghost use Rattle.spec_protocol.specs.Formulas.{flat};
ghost use Rattle.spec_protocol.specs.Unchanged.{Unchanged};
ghost use Rattle.spec_protocol.specs.Many.{many_need, transcript_part, AllRowsDone};
ghost use Rattle.relation_env_params.specs.Parameters.{parameters_of};
ghost use Rattle.ntt_vectors.specs.NttForm.{ntt_words};
ghost use Rattle.commitments_outer.specs.Cells.{width, digits_at, digits_of_element, Cells};
ghost use Rattle.verifier_common.specs.Work.{Received};
ghost use Rattle.verify_many_windows.specs.Rowable.{Rowable};
ghost use Rattle.verify_many_windows.specs.Digits.{digit_count, window_digits};
ghost use Rattle.verify_many_digits.specs.NttDigits.{NttFitting, ntt_digits_for, AllNttDigits};

use commitments_outer::outer_commitments::Digits;
use layout_sizes::{buffers, names, offsets, slices};
use ntt_transform::table::Twiddles;
use ntt_vectors::vectors;
use relation_env_params::env_params::EnvironmentParameters;
use ring_rq_vector::digits;
use verify_many_admission::bounds;

// The digits of the cell from `at` on, in NTT form from `place` on.
fn store_cell(
    from: &[u32],
    at: usize,
    base: u32,
    parts: usize,
    w: &Twiddles,
    to: &mut [u32],
    place: usize,
)
    requires { (at + 64 ≤ length from.now) × (1 < base) × (parts ≤ 32) × (place + 192 * parts ≤ length to.old) }
    ensures { to.new ≡ splice to.old place (ntt_words (flat (table parts (digits_of_element base from.now at))) 0 parts) }
{
    let mut cell = [0u32; 2048];
    digits::decompose_to(from, at, base, parts, &mut cell, 0);
    vectors::to_ntt_form(&cell, 0, parts, w, to, place);
}

// The digits of cells, in NTT form from `to_at` on.
fn store_cells(from: &[u32], d: Digits, base: u32, w: &Twiddles, to: &mut [u32], to_at: usize)
    requires { Cells from.now d × (1 < base) × (to_at + 192 * width d ≤ length to.old) }
    ensures { to.new ≡ splice to.old to_at (ntt_words (flat (digits_at from.now d base)) 0 (width d)) }
{
    let cells = d.cells;
    let parts = d.parts;
    let block = 192 * parts;
    let mut at = d.at;
    let mut place = to_at;
    for c in 0..cells {
        store_cell(from, at, base, parts, w, to, place);
        at += 64;
        place += block;
    }
}

// The digits of t, g and h of a transcript, in NTT form from `start` on.
fn store_window(
    transcript: &[u32],
    params: EnvironmentParameters,
    w: &Twiddles,
    scratch: &mut [u32],
    start: usize,
)
    requires { Received transcript.now params × (start + 192 * digit_count (parameters_of params) ≤ length scratch.old) }
    ensures { scratch.new ≡ splice scratch.old start (ntt_words (window_digits (parameters_of params) transcript.now) 0 (digit_count (parameters_of params))) }
{
    let cells = slices::triangle(params.multiplicity);
    let t = Digits {
        at: offsets::of_transcript(params, names::T),
        cells: params.multiplicity * params.kappa,
        parts: params.t_1,
    };
    let g = Digits {
        at: offsets::of_transcript(params, names::G),
        cells,
        parts: params.t_2,
    };
    let h = Digits {
        at: offsets::of_transcript(params, names::H),
        cells,
        parts: params.t_1,
    };
    let g_at = start + 192 * (params.multiplicity * params.kappa * params.t_1);
    let h_at = g_at + 192 * (cells * params.t_2);
    store_cells(transcript, t, params.b, w, scratch, start);
    store_cells(transcript, g, params.b, w, scratch, g_at);
    store_cells(transcript, h, params.b, w, scratch, h_at);
}

// Those of transcript m, where it passes.
fn one_to_ntt_form(
    params: EnvironmentParameters,
    count: usize,
    m: usize,
    pass: bool,
    transcripts: &[u32],
    w: &Twiddles,
    scratch: &mut [u32],
    start: usize,
)
    requires in_range { (m < count) × (count ≤ 8) × (start + 192 * digit_count (parameters_of params) ≤ length scratch.old) }
    requires received { pass ≡ true → Received (transcript_part (parameters_of params) count transcripts.now m) params }
    ensures { scratch.new ≡ ntt_digits_for (parameters_of params) transcripts.now count m start pass scratch.old }
{
    if pass {
        let b = bounds::transcript_bounds(transcripts.len(), params, count, m);
        let from = b.from;
        let to = b.to;
        store_window(&transcripts[from..to], params, w, scratch, start);
    }
}

// Those of every transcript that passes, each at the start of its window, after the rows of A.
pub fn all_to_ntt_form(
    job: &[u32],
    params: EnvironmentParameters,
    count: usize,
    passes: [bool; 8],
    transcripts: &[u32],
    w: &Twiddles,
    scratch: &mut [u32],
)
    requires rowable { Rowable job.now transcripts.now count (λ m. get_or passes m false) (length scratch.old) params × NttFitting (parameters_of params) }
    requires all_rows_done { AllRowsDone job.now count (λ m. get_or passes m false) transcripts.now scratch.old (parameters job.now).κ }
    ensures all_rows_done_2 { AllRowsDone job.now count (λ m. get_or passes m false) transcripts.now scratch.new (parameters job.now).κ }
    ensures all_ntt_digits { AllNttDigits job.now count (λ m. get_or passes m false) transcripts.now scratch.new }
    ensures unchanged { Unchanged (many_need (parameters job.now) count) scratch.old scratch.new }
{
    let need = buffers::scratch_length(params);
    let mut start = 0;
    for m in 0..count {
        let pass = passes[m];
        one_to_ntt_form(params, count, m, pass, transcripts, w, scratch, start);
        start += need;
    }
}
