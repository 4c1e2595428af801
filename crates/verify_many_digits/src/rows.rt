// The rows of B, C and D one after another, each transformed once and taken with the digits of every transcript, which are in NTT form in its window.
ghost use Rattle.std.specs.Prelude.{◌≡◌, false, ◌+◌, ◌*◌, ◌≤◌, ◌<◌, length, get_or};
ghost use Rattle.spec_protocol.specs.Parameters.{parameters};
ghost use Rattle.spec_protocol.specs.Unchanged.{Unchanged};
ghost use Rattle.spec_protocol.specs.Many.{many_need, row_count, AllRowsDone};
ghost use Rattle.relation_env_params.specs.Parameters.{parameters_of};
ghost use Rattle.layout_sizes.specs.Sizes.{Sized};
ghost use Rattle.verify_many_windows.specs.Rowable.{Rowable};
ghost use Rattle.verify_many_digits.specs.NttDigits.{NttFitting};
ghost use Rattle.verify_many_digits.specs.Rows.{shares, row_of, sum_for, stored_sums, SumsLong, Valued, RowMade};

use crate::{forms, sums};
use layout_sizes::{buffers, names, offsets, slices};
use ntt_transform::table::Twiddles;
use relation_env_params::env_params::EnvironmentParameters;
use ring_rq::rq::Rq;
use ring_words;

// Row k of the matrix in a section of the job, how many elements it has, and where the digits that it is taken with start in a window.
#[derive(Clone, Copy)]
pub struct Row {
    pub section: usize,
    pub k: usize,
    pub width: usize,
    pub digits: usize,
}

// Whether the rows of B, C and D are taken in NTT form.
pub fn shared(params: EnvironmentParameters, count: usize) -> bool
    requires { Sized (parameters_of params) }
    ensures { result ≡ shares (parameters_of params) count }
{
    if count < 2 {
        return false;
    }
    if params.kappa_1 < 3 {
        return false;
    }
    if params.kappa_2 < 3 {
        return false;
    }
    let t = params.multiplicity * params.kappa * params.t_1;
    let cells = slices::triangle(params.multiplicity);
    let digits = t + (cells * params.t_2 + cells * params.t_1);
    if digits < 32 {
        return false;
    }
    192 * digits <= buffers::scratch_length(params) - 4096
}

// Row `row` of A, B, C and D, one of those after A's.
fn place_of(params: EnvironmentParameters, row: usize) -> Row
    requires { Sized (parameters_of params) × (params.kappa ≤ row) × (row < row_count (parameters_of params)) }
    ensures { result ≡ row_of (parameters_of params) row }
{
    let b = params.kappa;
    let c = b + params.kappa_1;
    let d = c + params.kappa_1;
    let cells = slices::triangle(params.multiplicity);
    let t = params.multiplicity * params.kappa * params.t_1;
    let g = cells * params.t_2;
    let h = cells * params.t_1;
    if row < c {
        return Row {
            section: names::MATRIX_B,
            k: row - b,
            width: t,
            digits: 0,
        };
    }
    if row < d {
        return Row {
            section: names::MATRIX_C,
            k: row - c,
            width: g,
            digits: 192 * t,
        };
    }
    Row {
        section: names::MATRIX_D,
        k: row - d,
        width: h,
        digits: 192 * (t + g),
    }
}

// A sum stored, where it takes part.
fn store_sum(sum: Rq, pass: bool, scratch: &mut [u32], place: usize)
    requires { place + 64 ≤ length scratch.old }
    ensures { scratch.new ≡ sum_for sum.coeffs pass place scratch.old × (length sum.coeffs ≡ 64) }
{
    if pass {
        ring_words::store(scratch, place, sum);
    }
}

// The sums that take part, each stored in its window.
fn store_sums(
    sums: [Rq; 8],
    count: usize,
    passes: [bool; 8],
    scratch: &mut [u32],
    at: usize,
    need: usize,
)
    requires { (count ≤ 8) × (at + 64 ≤ need) × (count * need ≤ length scratch.old) }
    ensures { scratch.new ≡ stored_sums sums (λ m. get_or passes m false) at need count scratch.old × SumsLong sums count }
{
    let mut place = at;
    for m in 0..count {
        let sum = sums[m];
        let pass = passes[m];
        store_sum(sum, pass, scratch, place);
        place += need;
    }
}

// One row for every transcript that passes.
fn row_of_all(
    job: &[u32],
    params: EnvironmentParameters,
    row: usize,
    count: usize,
    passes: [bool; 8],
    w: &Twiddles,
    scratch: &mut [u32],
)
    requires valued { Valued job.now count (λ m. get_or passes m false) scratch.old (length scratch.old) params }
    requires kappa_le_row { (params.kappa ≤ row) × (row < row_count (parameters_of params)) }
    ensures row_made { RowMade job.now params count (λ m. get_or passes m false) row scratch.old scratch.new }
    ensures unchanged { Unchanged (many_need (parameters job.now) count) scratch.old scratch.new }
{
    let need = buffers::scratch_length(params);
    let p = place_of(params, row);
    let at = offsets::of_job(params, p.section) + 64 * (p.k * p.width);
    let sums = sums::row_sums(job, at, p.width, count, passes, w, scratch, p.digits, need);
    store_sums(sums, count, passes, scratch, need - 4096 + 64 * row, need);
}

// All of them.
pub fn rows_of_digits(
    job: &[u32],
    params: EnvironmentParameters,
    count: usize,
    passes: [bool; 8],
    transcripts: &[u32],
    scratch: &mut [u32],
)
    requires rowable { Rowable job.now transcripts.now count (λ m. get_or passes m false) (length scratch.old) params × NttFitting (parameters_of params) }
    requires all_rows_done { AllRowsDone job.now count (λ m. get_or passes m false) transcripts.now scratch.old (parameters job.now).κ }
    ensures all_rows_done_2 { AllRowsDone job.now count (λ m. get_or passes m false) transcripts.now scratch.new (row_count (parameters job.now)) }
    ensures unchanged { Unchanged (many_need (parameters job.now) count) scratch.old scratch.new }
{
    let w = Twiddles::new();
    forms::all_to_ntt_form(job, params, count, passes, transcripts, &w, scratch);
    let last = params.kappa + params.kappa_1 + params.kappa_1 + params.kappa_2;
    for row in params.kappa..last {
        row_of_all(job, params, row, count, passes, &w, scratch);
    }
}
