// The transcript's sections in the lent output, each after its count. Each function writes from a place on and answers the place after it.
#![tactic(auto)]

ghost use Rattle.std.specs.Prelude.{◌≡◌, [], ◌∷◌, ◌≤◌, length};
ghost use Rattle.math.specs.lists.Part.{splice};
ghost use Rattle.spec_protocol.specs.Parameters.{parameters};
ghost use Rattle.spec_protocol.specs.Layout.{span};
ghost use Rattle.spec_protocol.specs.Prover.{made_sections};
ghost use Rattle.ring_challenge_products.specs.Powers.{AllSparse};
ghost use Rattle.admission_slices.specs.Admission.{call_of};
ghost use Rattle.relation_env_params.specs.Parameters.{parameters_of};
ghost use Rattle.core_workspace.specs.Ready.{Ready, Drawn};
ghost use Rattle.prover_commit.specs.Refusals.{makes};
ghost use Rattle.prover_commit.specs.Work.{WorkGiven, Placed, Filled};
ghost use Rattle.prover_p_and_b.specs.Sections.{SectionsRoom, Put, Vectors, Projects};
ghost use Rattle.prover_sections.specs.Sections.{u₁_in, u₂_in, z_in, t_g_h_in, last_in, all_in};

use admission_slices::calls::Call;
use commitments_outer::outer_commitments;
use commitments_outer::outer_commitments::Digits;
use layout_regions::Regions;
use layout_sizes::{names, offsets, slices};
use prover_p_and_b::{compute_p, put_b_double_prime, put_section};
use relation_env_params::env_params::EnvironmentParameters;

// "u1 = B·digits(t) + C·digits(g)"
fn compute_u1(
    job: &[u32],
    params: EnvironmentParameters,
    regions: Regions,
    scratch: &[u32],
    output: &mut [u32],
    at: usize,
) -> usize
    requires { Ready job.now params regions scratch.now × SectionsRoom at (u₁_in (parameters_of params) regions scratch.now job.now ∷ []) output.old }
    ensures { Put at result output.old output.new (u₁_in (parameters_of params) regions scratch.now job.now ∷ []) }
{
    let t = Digits {
        at: regions.t,
        cells: params.multiplicity * params.kappa,
        parts: params.t_1,
    };
    let g = Digits {
        at: regions.g,
        cells: slices::triangle(params.multiplicity),
        parts: params.t_2,
    };
    let b_at = offsets::of_job(params, names::MATRIX_B);
    let c_at = offsets::of_job(params, names::MATRIX_C);
    let count = 64 * params.kappa_1;
    output[at] = count as u32;
    outer_commitments::compute_u1(
        job,
        b_at,
        c_at,
        params.kappa_1,
        scratch,
        t,
        g,
        params.b,
        output,
        at + 1,
    );
    at + 1 + count
}

// "u2 = D·digits(h)"
fn compute_u2(
    job: &[u32],
    params: EnvironmentParameters,
    regions: Regions,
    scratch: &[u32],
    output: &mut [u32],
    at: usize,
) -> usize
    requires { Ready job.now params regions scratch.now × SectionsRoom at (u₂_in (parameters_of params) regions scratch.now job.now ∷ []) output.old }
    ensures { Put at result output.old output.new (u₂_in (parameters_of params) regions scratch.now job.now ∷ []) }
{
    let parts = params.t_1;
    let h = Digits {
        at: regions.a_or_h,
        cells: slices::triangle(params.multiplicity),
        parts,
    };
    let d_at = offsets::of_job(params, names::MATRIX_D);
    let count = 64 * params.kappa_2;
    output[at] = count as u32;
    outer_commitments::compute_u2(
        job,
        d_at,
        params.kappa_2,
        scratch,
        h,
        params.b,
        output,
        at + 1,
    );
    at + 1 + count
}

// "z = Σ s_i·c_i"
fn compute_z(
    witness: &[u32],
    params: EnvironmentParameters,
    regions: Regions,
    scratch: &[u32],
    output: &mut [u32],
    at: usize,
) -> usize
    requires { Placed params regions scratch.now × Vectors params witness.now × AllSparse scratch.now regions.challenges params.multiplicity
        × SectionsRoom at (z_in (parameters_of params) regions scratch.now witness.now ∷ []) output.old }
    ensures { Put at result output.old output.new (z_in (parameters_of params) regions scratch.now witness.now ∷ []) }
{
    let vectors = params.multiplicity;
    let count = 64 * params.rank;
    output[at] = count as u32;
    transcript_challenges::compute_z(
        witness,
        1,
        scratch,
        regions.challenges,
        vectors,
        params.rank,
        output,
        at + 1,
    );
    at + 1 + count
}

// t, g and h from their regions.
fn put_t_g_h(
    params: EnvironmentParameters,
    regions: Regions,
    scratch: &[u32],
    output: &mut [u32],
    at: usize,
) -> usize
    requires { Placed params regions scratch.now × SectionsRoom at (t_g_h_in (parameters_of params) regions scratch.now) output.old }
    ensures { Put at result output.old output.new (t_g_h_in (parameters_of params) regions scratch.now) }
{
    let cells = 64 * (params.multiplicity * params.kappa);
    let count = 64 * slices::triangle(params.multiplicity);
    let g_at = at + 1 + cells;
    let h_at = g_at + 1 + count;
    put_section(output, at, scratch, regions.t, cells);
    put_section(output, g_at, scratch, regions.g, count);
    put_section(output, h_at, scratch, regions.a_or_h, count);
    h_at + 1 + count
}

// Round 5: z, t, g, h.
fn put_z_t_g_h(
    witness: &[u32],
    params: EnvironmentParameters,
    regions: Regions,
    scratch: &[u32],
    output: &mut [u32],
    at: usize,
) -> usize
    requires { Placed params regions scratch.now × Vectors params witness.now × AllSparse scratch.now regions.challenges params.multiplicity
        × SectionsRoom at (last_in (parameters_of params) regions scratch.now witness.now) output.old }
    ensures { Put at result output.old output.new (last_in (parameters_of params) regions scratch.now witness.now) }
{
    let t_at = compute_z(witness, params, regions, scratch, output, at);
    put_t_g_h(params, regions, scratch, output, t_at)
}

// The whole transcript: u1, p, b'', u2, then z, t, g, h.
fn put_all(
    job: &[u32],
    randomness: &[u32],
    witness: &[u32],
    params: EnvironmentParameters,
    regions: Regions,
    scratch: &[u32],
    output: &mut [u32],
) -> usize
    requires ready { Ready job.now params regions scratch.now × Projects params randomness.now witness.now
        × AllSparse scratch.now regions.challenges params.multiplicity }
    requires sections_room { SectionsRoom 0 (all_in (parameters_of params) regions scratch.now job.now randomness.now witness.now) output.old }
    ensures { Put 0 result output.old output.new
        (all_in (parameters_of params) regions scratch.now job.now randomness.now witness.now) }
{
    let p_at = compute_u1(job, params, regions, scratch, output, 0);
    let b_at = compute_p(randomness, witness, params, output, p_at);
    let u_at = put_b_double_prime(params, regions, scratch, output, b_at);
    let z_at = compute_u2(job, params, regions, scratch, output, u_at);
    put_z_t_g_h(witness, params, regions, scratch, output, z_at)
}

// The sections of a call, from what stands in the scratch.
// A match: which call is asked for comes in as a value, and closures would be chosen by the same arms.
pub fn put(
    call: Call,
    job: &[u32],
    randomness: &[u32],
    witness: &[u32],
    params: EnvironmentParameters,
    regions: Regions,
    scratch: &[u32],
    output: &mut [u32],
) -> usize
    requires work_given { WorkGiven job.now witness.now params regions scratch.now × Drawn (call_of call).handed job.now randomness.now }
    requires filled { Filled job.now randomness.now witness.now regions scratch.now call × (span (made_sections (call_of call) (parameters job.now)) ≤ length output.old) }
    ensures { output.new ≡ splice output.old 0 (makes job.now randomness.now witness.now (call_of call)) }
{
    match call {
        Call::Whole => put_all(job, randomness, witness, params, regions, scratch, output),
        Call::Round1 => compute_u1(job, params, regions, scratch, output, 0),
        Call::Round2 => compute_p(randomness, witness, params, output, 0),
        Call::Round3 => put_b_double_prime(params, regions, scratch, output, 0),
        Call::Round4 => compute_u2(job, params, regions, scratch, output, 0),
        Call::Round5 => put_z_t_g_h(witness, params, regions, scratch, output, 0),
    }
}
