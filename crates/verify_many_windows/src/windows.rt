// The digits of t, g and h of each transcript, stored at the start of its window of the scratch where they have room (document 02, Item 11).
ghost use Rattle.std.specs.Prelude.{◌≡◌, true, false, ◌*◌, ◌≤◌, ◌<◌, ◌^◌, leb, length, get_or};
ghost use Rattle.math.specs.lists.Part.{splice};
ghost use Rattle.spec_protocol.specs.Parameters.{parameters};
ghost use Rattle.spec_protocol.specs.Unchanged.{Unchanged};
ghost use Rattle.spec_protocol.specs.Many.{many_need, transcript_part, products_at, AllRowsDone};
ghost use Rattle.relation_env_params.specs.Parameters.{parameters_of};
ghost use Rattle.commitments_outer.specs.Cells.{Room};
ghost use Rattle.layout_sizes.specs.Sizes.{Sized};
ghost use Rattle.verifier_common.specs.Work.{Received};
ghost use Rattle.verify_many_windows.specs.Rowable.{Rowable};
ghost use Rattle.verify_many_windows.specs.Digits.{digit_count, Fitting, window_digits, digits_for, Places, AllDigits};

use crate::digits;
use crate::row::Held;
use commitments_outer::outer_commitments::Digits;
use layout_sizes::{buffers, names, offsets, slices};
use relation_env_params::env_params::EnvironmentParameters;
use verify_many_admission::bounds;
use verify_many_admission::bounds::Bounds;

// Whether the digits of a transcript have room in its window before the products.
pub fn fits(params: EnvironmentParameters) -> bool
    requires { Sized (parameters_of params) }
    ensures { result ≡ leb (64 * digit_count (parameters_of params)) (products_at (parameters_of params)) }
{
    let t = params.multiplicity * params.kappa * params.t_1;
    let cells = slices::triangle(params.multiplicity);
    let gh = cells * params.t_2 + cells * params.t_1;
    64 * (t + gh) <= buffers::scratch_length(params) - 4096
}

// The places of the digits in the window that starts at `start`.
pub fn places(params: EnvironmentParameters, start: usize) -> Held
    requires { Sized (parameters_of params) × (start < 2 ^ 61) }
    ensures { Places (parameters_of params) start result }
{
    let t = params.multiplicity * params.kappa * params.t_1;
    let g = slices::triangle(params.multiplicity) * params.t_2;
    Held {
        t: start,
        g: start + 64 * t,
        h: start + 64 * t + 64 * g,
    }
}

// The digits of t, g and h of a transcript, stored at their places.
fn store_window(
    transcript: &[u32],
    params: EnvironmentParameters,
    scratch: &mut [u32],
    start: usize,
)
    requires { Received transcript.now params × Room scratch.old start (digit_count (parameters_of params)) }
    ensures { scratch.new ≡ splice scratch.old start (window_digits (parameters_of params) transcript.now) }
{
    let at = places(params, start);
    let cells = slices::triangle(params.multiplicity);
    let t = Digits {
        at: offsets::of_transcript(params, names::T),
        cells: params.multiplicity * params.kappa,
        parts: params.t_1,
    };
    let g = Digits {
        at: offsets::of_transcript(params, names::G),
        cells,
        parts: params.t_2,
    };
    let h = Digits {
        at: offsets::of_transcript(params, names::H),
        cells,
        parts: params.t_1,
    };
    digits::store_cells(transcript, t, params.b, scratch, at.t);
    digits::store_cells(transcript, g, params.b, scratch, at.g);
    digits::store_cells(transcript, h, params.b, scratch, at.h);
}

// The digits of transcript m, where it passes.
fn digits_of_one(
    params: EnvironmentParameters,
    count: usize,
    m: usize,
    pass: bool,
    transcripts: &[u32],
    scratch: &mut [u32],
    start: usize,
)
    requires m_lt_count { (m < count) × (count ≤ 8) × Room scratch.old start (digit_count (parameters_of params)) }
    requires received { pass ≡ true → Received (transcript_part (parameters_of params) count transcripts.now m) params }
    ensures { scratch.new ≡ digits_for (parameters_of params) transcripts.now count m start pass scratch.old }
{
    if pass {
        let Bounds { from, to } = bounds::transcript_bounds(transcripts.len(), params, count, m);
        store_window(&transcripts[from..to], params, scratch, start);
    }
}

// The digits of every transcript that passes, each at the start of its window, after the rows of A.
pub fn digits_of_all(
    job: &[u32],
    params: EnvironmentParameters,
    count: usize,
    passes: [bool; 8],
    transcripts: &[u32],
    scratch: &mut [u32],
)
    requires rowable { Rowable job.now transcripts.now count (λ m. get_or passes m false) (length scratch.old) params × Fitting (parameters_of params) }
    requires all_rows_done { AllRowsDone job.now count (λ m. get_or passes m false) transcripts.now scratch.old (parameters job.now).κ }
    ensures all_rows_done_2 { AllRowsDone job.now count (λ m. get_or passes m false) transcripts.now scratch.new (parameters job.now).κ }
    ensures all_digits { AllDigits job.now count (λ m. get_or passes m false) transcripts.now scratch.new }
    ensures unchanged { Unchanged (many_need (parameters job.now) count) scratch.old scratch.new }
{
    let need = buffers::scratch_length(params);
    let mut start = 0;
    for m in 0..count {
        let pass = passes[m];
        digits_of_one(params, count, m, pass, transcripts, scratch, start);
        start += need;
    }
}
