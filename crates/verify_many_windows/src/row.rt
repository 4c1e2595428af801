// The product of one row of A, B, C or D with one transcript, stored in its place (document 02, Item 11).
ghost use Rattle.std.specs.Prelude.{◌≡◌, ◌+◌, ◌*◌, ◌≤◌, ◌<◌, length};
ghost use Rattle.std.specs.Option.{ForSome};
ghost use Rattle.math.specs.lists.Part.{splice};
ghost use Rattle.spec_leaves.specs.Ring.{words};
ghost use Rattle.spec_protocol.specs.Parameters.{parameters};
ghost use Rattle.spec_protocol.specs.Many.{row_count, row_product};
ghost use Rattle.commitments_outer.specs.Cells.{width, Room, digits_product, Cells};
ghost use Rattle.relation_env_params.specs.Parameters.{parameters_of};
ghost use Rattle.verifier_common.specs.Work.{Posed};
ghost use Rattle.verify_many_windows.specs.Row.{of_A, of_B, of_C, of_D};
ghost use Rattle.verify_many_windows.specs.Held.{DigitsHeld, AllHeld};

use crate::digits;
use commitments_outer::outer_commitments;
use commitments_outer::outer_commitments::Digits;
use layout_sizes::{names, offsets, slices};
use relation_env_params::env_params::EnvironmentParameters;
use ring_inner_product;
use ring_words;

// Where the digits of t, g and h of a transcript stand in the scratch.
#[derive(Clone, Copy)]
pub struct Held {
    pub t: usize,
    pub g: usize,
    pub h: usize,
}

// The product of row k of a matrix with the digits of cells, which may be stored from a place on.
fn store_digits(
    job: &[u32],
    m_at: usize,
    k: usize,
    transcript: &[u32],
    d: Digits,
    base: u32,
    scratch: &mut [u32],
    place: usize,
    held_at: Option<usize>,
)
    requires room { Room job.now m_at (k * width d + width d) × Cells transcript.now d × (1 < base) × Room scratch.old place 1 }
    requires digits_held { ForSome held_at (λ at. DigitsHeld scratch.old at transcript.now d base) }
    ensures { scratch.new ≡ splice scratch.old place (words (digits_product job.now m_at transcript.now d base k)) }
{
    let cells = d.cells;
    let parts = d.parts;
    let row = m_at + 64 * (k * (cells * parts));
    match held_at {
        Some(at) => {
            let half = u64::from(base / 2);
            let product = digits::row_product(job, row, scratch, at, cells, parts, half);
            ring_words::store(scratch, place, product);
        }
        None => outer_commitments::compute_u2(job, row, 1, transcript, d, base, scratch, place),
    }
}

// Row k of A with z.
pub fn store_of_a(
    job: &[u32],
    params: EnvironmentParameters,
    k: usize,
    transcript: &[u32],
    scratch: &mut [u32],
    place: usize,
)
    requires { Posed job.now transcript.now params × (k < params.kappa) × Room scratch.old place 1 }
    ensures { scratch.new ≡ splice scratch.old place (words (of_A job.now transcript.now k)) }
{
    let n = params.rank;
    let row = offsets::of_job(params, names::MATRIX_A) + 64 * (k * n);
    let z_at = offsets::of_transcript(params, names::Z);
    let product = ring_inner_product::inner_product(job, row, 64, transcript, z_at, 64, n);
    ring_words::store(scratch, place, product);
}

// Row k of B with the digits of t.
pub fn store_of_b(
    job: &[u32],
    params: EnvironmentParameters,
    k: usize,
    transcript: &[u32],
    scratch: &mut [u32],
    place: usize,
    held: Option<Held>,
)
    requires posed { Posed job.now transcript.now params × (k < params.kappa_1) × Room scratch.old place 1 }
    requires all_held { ForSome held (AllHeld job.now transcript.now scratch.old) }
    ensures { scratch.new ≡ splice scratch.old place (words (of_B job.now transcript.now k)) }
{
    let t = Digits {
        at: offsets::of_transcript(params, names::T),
        cells: params.multiplicity * params.kappa,
        parts: params.t_1,
    };
    let b_at = offsets::of_job(params, names::MATRIX_B);
    store_digits(
        job,
        b_at,
        k,
        transcript,
        t,
        params.b,
        scratch,
        place,
        held.map(|held| held.t),
    );
}

// Row k of C with the digits of g.
pub fn store_of_c(
    job: &[u32],
    params: EnvironmentParameters,
    k: usize,
    transcript: &[u32],
    scratch: &mut [u32],
    place: usize,
    held: Option<Held>,
)
    requires posed { Posed job.now transcript.now params × (k < params.kappa_1) × Room scratch.old place 1 }
    requires all_held { ForSome held (AllHeld job.now transcript.now scratch.old) }
    ensures { scratch.new ≡ splice scratch.old place (words (of_C job.now transcript.now k)) }
{
    let g = Digits {
        at: offsets::of_transcript(params, names::G),
        cells: slices::triangle(params.multiplicity),
        parts: params.t_2,
    };
    let c_at = offsets::of_job(params, names::MATRIX_C);
    store_digits(
        job,
        c_at,
        k,
        transcript,
        g,
        params.b,
        scratch,
        place,
        held.map(|held| held.g),
    );
}

// Row k of D with the digits of h.
pub fn store_of_d(
    job: &[u32],
    params: EnvironmentParameters,
    k: usize,
    transcript: &[u32],
    scratch: &mut [u32],
    place: usize,
    held: Option<Held>,
)
    requires posed { Posed job.now transcript.now params × (k < params.kappa_2) × Room scratch.old place 1 }
    requires all_held { ForSome held (AllHeld job.now transcript.now scratch.old) }
    ensures { scratch.new ≡ splice scratch.old place (words (of_D job.now transcript.now k)) }
{
    let h = Digits {
        at: offsets::of_transcript(params, names::H),
        cells: slices::triangle(params.multiplicity),
        parts: params.t_1,
    };
    let d_at = offsets::of_job(params, names::MATRIX_D);
    store_digits(
        job,
        d_at,
        k,
        transcript,
        h,
        params.b,
        scratch,
        place,
        held.map(|held| held.h),
    );
}

// Row `row` of A, B, C and D, one after another.
pub fn store_row(
    job: &[u32],
    params: EnvironmentParameters,
    row: usize,
    transcript: &[u32],
    scratch: &mut [u32],
    place: usize,
    held: Option<Held>,
)
    requires posed { Posed job.now transcript.now params × (row < row_count (parameters_of params)) × Room scratch.old place 1 }
    requires all_held { ForSome held (AllHeld job.now transcript.now scratch.old) }
    ensures { scratch.new ≡ splice scratch.old place (words (row_product job.now transcript.now row)) }
{
    let b = params.kappa;
    let c = b + params.kappa_1;
    let d = c + params.kappa_1;
    if row < b {
        store_of_a(job, params, row, transcript, scratch, place);
    } else if row < c {
        store_of_b(job, params, row - b, transcript, scratch, place, held);
    } else if row < d {
        store_of_c(job, params, row - c, transcript, scratch, place, held);
    } else {
        store_of_d(job, params, row - d, transcript, scratch, place, held);
    }
}
