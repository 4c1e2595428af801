// The rows of A, B, C and D one after another, each for every transcript that passes 7 to 10 before the next (document 02, Item 11).
ghost use Rattle.std.specs.Prelude.{◌≡◌, true, false, ◌+◌, ◌^◌, ◌≤◌, ◌<◌, length, get_or};
ghost use Rattle.std.specs.Option.{ForSome, is_some};
ghost use Rattle.spec_protocol.specs.Parameters.{parameters};
ghost use Rattle.spec_protocol.specs.Unchanged.{Unchanged};
ghost use Rattle.spec_protocol.specs.Many.{many_need, transcript_part, row_count, AllRowsDone};
ghost use Rattle.relation_env_params.specs.Parameters.{parameters_of};
ghost use Rattle.commitments_outer.specs.Cells.{Room};
ghost use Rattle.verifier_common.specs.Work.{Posed};
ghost use Rattle.verify_many_windows.specs.Held.{AllHeld};
ghost use Rattle.verify_many_windows.specs.Digits.{Places, StoredDigits};
ghost use Rattle.layout_sizes.specs.Sizes.{Sized};
ghost use Rattle.verify_many_rows.specs.Rows.{Rowable, stored_for, ProductsZero};

use crate::a_rows;
use layout_sizes::buffers;
use relation_env_params::env_params::EnvironmentParameters;
use ring_words;
use verify_many_admission::bounds;
use verify_many_digits::rows as digit_rows;
use verify_many_windows::row::Held;
use verify_many_windows::{row, windows};

// One row's product for transcript m, where it passes, in the window that starts at `start`.
fn row_of_one(
    job: &[u32],
    params: EnvironmentParameters,
    row: usize,
    count: usize,
    m: usize,
    pass: bool,
    transcripts: &[u32],
    scratch: &mut [u32],
    place: usize,
    held: Option<Held>,
)
    requires m_lt_count { (m < count) × (count ≤ 8) × (row < row_count (parameters_of params)) × Room scratch.old place 1 }
    requires posed { pass ≡ true → Posed job.now (transcript_part (parameters job.now) count transcripts.now m) params }
    requires all_held { pass ≡ true → ForSome held (AllHeld job.now (transcript_part (parameters job.now) count transcripts.now m) scratch.old) }
    ensures { scratch.new ≡ stored_for job.now transcripts.now count row m place pass scratch.old }
{
    if pass {
        let b = bounds::transcript_bounds(transcripts.len(), params, count, m);
        let from = b.from;
        let to = b.to;
        row::store_row(
            job,
            params,
            row,
            &transcripts[from..to],
            scratch,
            place,
            held,
        );
    }
}

// The places of the digits in the window that starts at `start`, exactly where they are stored.
fn held_from(params: EnvironmentParameters, start: usize, stored: bool) -> Option<Held>
    requires { Sized (parameters_of params) × (start < 2 ^ 61) }
    ensures told { is_some result ≡ stored }
    ensures places { ForSome result (λ at. Places (parameters_of params) start at) }
{
    if stored {
        Some(windows::places(params, start))
    } else {
        None
    }
}

// One row's products for every transcript that passes.
fn row_of_all(
    job: &[u32],
    params: EnvironmentParameters,
    row: usize,
    count: usize,
    passes: [bool; 8],
    transcripts: &[u32],
    scratch: &mut [u32],
    stored: bool,
)
    requires rowable { Rowable job.now transcripts.now count (λ m. get_or passes m false) (length scratch.old) params × (row < row_count (parameters_of params)) }
    requires all_rows_done { AllRowsDone job.now count (λ m. get_or passes m false) transcripts.now scratch.old row }
    requires stored_digits { StoredDigits job.now count (λ m. get_or passes m false) transcripts.now scratch.old stored }
    ensures all_rows_done_2 { AllRowsDone job.now count (λ m. get_or passes m false) transcripts.now scratch.new (row + 1) }
    ensures stored_digits_2 { StoredDigits job.now count (λ m. get_or passes m false) transcripts.now scratch.new stored }
    ensures unchanged { Unchanged (many_need (parameters job.now) count) scratch.old scratch.new }
{
    let need = buffers::scratch_length(params);
    let mut start = 0;
    for m in 0..count {
        let pass = passes[m];
        let place = start + need - 4096 + 64 * row;
        let held = held_from(params, start, stored);
        row_of_one(
            job,
            params,
            row,
            count,
            m,
            pass,
            transcripts,
            scratch,
            place,
            held,
        );
        start += need;
    }
}

// The rows from `first` to before `last`, one after another.
fn some_rows(
    job: &[u32],
    params: EnvironmentParameters,
    first: usize,
    last: usize,
    count: usize,
    passes: [bool; 8],
    transcripts: &[u32],
    scratch: &mut [u32],
    stored: bool,
)
    requires rowable { Rowable job.now transcripts.now count (λ m. get_or passes m false) (length scratch.old) params × (first ≤ last) × (last ≤ row_count (parameters_of params)) }
    requires all_rows_done { AllRowsDone job.now count (λ m. get_or passes m false) transcripts.now scratch.old first }
    requires stored_digits { StoredDigits job.now count (λ m. get_or passes m false) transcripts.now scratch.old stored }
    ensures all_rows_done_2 { AllRowsDone job.now count (λ m. get_or passes m false) transcripts.now scratch.new last }
    ensures unchanged { Unchanged (many_need (parameters job.now) count) scratch.old scratch.new }
{
    for row in first..last {
        row_of_all(
            job,
            params,
            row,
            count,
            passes,
            transcripts,
            scratch,
            stored,
        );
    }
}

// The products' part of every window set to zero.
fn clear_products(params: EnvironmentParameters, count: usize, scratch: &mut [u32])
    requires { Sized (parameters_of params) × (many_need (parameters_of params) count ≤ length scratch.old) }
    ensures products_zero { ProductsZero (parameters_of params) count scratch.new }
    ensures unchanged { Unchanged (many_need (parameters_of params) count) scratch.old scratch.new }
{
    let need = buffers::scratch_length(params);
    let mut start = 0;
    for m in 0..count {
        ring_words::clear_run(scratch, start + need - 4096, 4096);
        start += need;
    }
}

// The rows of A, in NTT form where this costs less.
fn rows_of_a(
    job: &[u32],
    params: EnvironmentParameters,
    count: usize,
    passes: [bool; 8],
    transcripts: &[u32],
    scratch: &mut [u32],
)
    requires rowable { Rowable job.now transcripts.now count (λ m. get_or passes m false) (length scratch.old) params }
    requires all_rows_done { AllRowsDone job.now count (λ m. get_or passes m false) transcripts.now scratch.old 0 }
    ensures all_rows_done_2 { AllRowsDone job.now count (λ m. get_or passes m false) transcripts.now scratch.new (parameters job.now).κ }
    ensures unchanged { Unchanged (many_need (parameters job.now) count) scratch.old scratch.new }
{
    if a_rows::shared(params, count) {
        a_rows::rows_of_a(job, params, count, passes, transcripts, scratch);
    } else {
        some_rows(
            job,
            params,
            0,
            params.kappa,
            count,
            passes,
            transcripts,
            scratch,
            false,
        );
    }
}

// The rows of B, C and D by plain products, with the digits stored where they have room.
fn plain_rows(
    job: &[u32],
    params: EnvironmentParameters,
    count: usize,
    passes: [bool; 8],
    transcripts: &[u32],
    scratch: &mut [u32],
)
    requires rowable { Rowable job.now transcripts.now count (λ m. get_or passes m false) (length scratch.old) params }
    requires all_rows_done { AllRowsDone job.now count (λ m. get_or passes m false) transcripts.now scratch.old (parameters job.now).κ }
    ensures all_rows_done_2 { AllRowsDone job.now count (λ m. get_or passes m false) transcripts.now scratch.new (row_count (parameters job.now)) }
    ensures unchanged { Unchanged (many_need (parameters job.now) count) scratch.old scratch.new }
{
    let a = params.kappa;
    let rows = a + params.kappa_1 + params.kappa_1 + params.kappa_2;
    if windows::fits(params) {
        windows::digits_of_all(job, params, count, passes, transcripts, scratch);
        some_rows(
            job,
            params,
            a,
            rows,
            count,
            passes,
            transcripts,
            scratch,
            true,
        );
    } else {
        some_rows(
            job,
            params,
            a,
            rows,
            count,
            passes,
            transcripts,
            scratch,
            false,
        );
    }
}

// The rows of B, C and D, in NTT form where this costs less.
fn other_rows(
    job: &[u32],
    params: EnvironmentParameters,
    count: usize,
    passes: [bool; 8],
    transcripts: &[u32],
    scratch: &mut [u32],
)
    requires rowable { Rowable job.now transcripts.now count (λ m. get_or passes m false) (length scratch.old) params }
    requires all_rows_done { AllRowsDone job.now count (λ m. get_or passes m false) transcripts.now scratch.old (parameters job.now).κ }
    ensures all_rows_done_2 { AllRowsDone job.now count (λ m. get_or passes m false) transcripts.now scratch.new (row_count (parameters job.now)) }
    ensures unchanged { Unchanged (many_need (parameters job.now) count) scratch.old scratch.new }
{
    if digit_rows::shared(params, count) {
        digit_rows::rows_of_digits(job, params, count, passes, transcripts, scratch);
    } else {
        plain_rows(job, params, count, passes, transcripts, scratch);
    }
}

// All rows.
// Not inlined: its buffers do not lie above those of the verdicts, which come after it.
#[inline(never)]
pub fn row_products(
    job: &[u32],
    params: EnvironmentParameters,
    count: usize,
    passes: [bool; 8],
    transcripts: &[u32],
    scratch: &mut [u32],
)
    requires { Rowable job.now transcripts.now count (λ m. get_or passes m false) (length scratch.old) params }
    ensures all_rows_done { AllRowsDone job.now count (λ m. get_or passes m false) transcripts.now scratch.new (row_count (parameters job.now)) }
    ensures unchanged { Unchanged (many_need (parameters job.now) count) scratch.old scratch.new }
{
    clear_products(params, count, scratch);
    rows_of_a(job, params, count, passes, transcripts, scratch);
    other_rows(job, params, count, passes, transcripts, scratch);
}
