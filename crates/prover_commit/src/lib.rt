// t and g into the scratch, with the refusals 13 to 15; what the prover's steps stand on and leave there.
// The slices and the parameters are no struct: `WorkGiven` speaks of the scratch, which each step is lent with other words, and `Drawn` of as much of the
// randomness as the call is handed, so that both facts would stand in the contracts beside it.
#![tactic(auto)]

ghost use Rattle.std.specs.Prelude.{◌≡◌, ◌+◌, ◌*◌, ◌≤◌, ◌<◌, length, OnOk};
ghost use Rattle.std.proofs.Math.Decide.{dec_le};
ghost use Rattle.spec_leaves.specs.Answer.{of_result, of_refusal, ◌then◌};
ghost use Rattle.spec_protocol.specs.Checks.{require};
ghost use Rattle.spec_protocol.specs.Formulas.{norm_of};
ghost use Rattle.spec_protocol.specs.Parameters.{parameters, triangular};
ghost use Rattle.spec_protocol.specs.Layout.{scratch_need};
ghost use Rattle.commitments_outer.specs.Cells.{digits_at, Cells};
ghost use Rattle.relation_env_params.specs.Parameters.{parameters_of};
ghost use Rattle.layout_sizes.specs.Sizes.{Sized};
ghost use Rattle.core_workspace.specs.Holds.{Unchanged};
ghost use Rattle.prover_commit.specs.Refusals.{t_refusal, g_refusal, first_refusal, t_check, triangle_check};
ghost use Rattle.prover_commit.specs.Work.{WorkGiven, Placed, Committed, plain_sizes};

use commitments_ajtai::{ajtai_commitment, ntt};
use commitments_bounds::common_instances;
use commitments_outer::outer_commitments::Digits;
use core_garbage_polynomials::g;
use layout_regions::Regions;
use layout_sizes::{names, offsets, slices};
use relation_env_params::env_params::EnvironmentParameters;
use spec_leaves::answers::Refusal;

// Refused with 14, 15 or 16 where the digits of cells are above a bound.
fn check_digits(
    scratch: &[u32],
    digits: Digits,
    base: u32,
    bound: u128,
    refusal: Refusal,
) -> Result<(), Refusal>
    requires { Cells scratch.now digits × (1 < base) }
    ensures { of_result result ≡ require (dec_le (norm_of (digits_at scratch.now digits base)) bound) (of_refusal refusal) }
{
    if common_instances::digits_within(scratch, digits, base, bound) {
        Ok(())
    } else {
        Err(refusal)
    }
}

// "14 digits of t above B's bound", of the cells of its region.
fn check_t(params: EnvironmentParameters, regions: Regions, scratch: &[u32]) -> Result<(), Refusal>
    requires { Placed params regions scratch.now }
    ensures { of_result result ≡ t_check params regions scratch.now }
{
    let t = Digits {
        at: regions.t,
        cells: params.multiplicity * params.kappa,
        parts: params.t_1,
    };
    check_digits(scratch, t, params.b, params.bound_b, Refusal::DigitsOfT)
}

// "15 of g above C's, 16 of h above D's", of the triangle of cells of a region.
pub fn check_triangle(
    params: EnvironmentParameters,
    at: usize,
    parts: usize,
    bound: u128,
    refusal: Refusal,
    scratch: &[u32],
) -> Result<(), Refusal>
    requires { Sized (parameters_of params) × (at + 64 * triangular params.multiplicity ≤ length scratch.now) × (parts ≤ 32) }
    ensures { of_result result ≡ triangle_check params at parts bound refusal scratch.now }
{
    let cells = slices::triangle(params.multiplicity);
    let triangle = Digits { at, cells, parts };
    check_digits(scratch, triangle, params.b, bound, refusal)
}

// Whether t, g and h take less time by plain products than in NTT form.
pub fn plain_is_faster(n: usize, r: usize) -> bool
    requires { (n ≤ 64) × (r ≤ 64) }
    ensures { result ≡ plain_sizes n r }
{
    n == 1 || n * r <= 4
}

// "t_i = A·s_i" and "g_ij = ⟨s_i,s_j⟩" in NTT form, with 14 and 15.
fn commit_ntt(
    job: &[u32],
    witness: &[u32],
    params: EnvironmentParameters,
    regions: Regions,
    scratch: &mut [u32],
) -> Result<(), Refusal>
    requires { WorkGiven job.now witness.now params regions scratch.old }
    ensures result_value { of_result result ≡ t_refusal job.now witness.now then g_refusal job.now witness.now }
    ensures unchanged { Unchanged (scratch_need (parameters job.now)) scratch.old scratch.new }
    ensures made { OnOk result (Committed job.now witness.now regions scratch.new) }
{
    let a_at = offsets::of_job(params, names::MATRIX_A);
    ntt::t_of(
        job,
        a_at,
        params.kappa,
        params.rank,
        witness,
        1,
        params.multiplicity,
        scratch,
        regions.phi2,
        regions.t,
    );
    check_t(params, regions, scratch)?;
    core_garbage_ntt::g::compute_g(
        scratch,
        regions.phi2,
        params.multiplicity,
        params.rank,
        regions.g,
    );
    check_triangle(
        params,
        regions.g,
        params.t_2,
        params.bound_c,
        Refusal::DigitsOfG,
        scratch,
    )
}

// The same by plain products.
fn commit_plain(
    job: &[u32],
    witness: &[u32],
    params: EnvironmentParameters,
    regions: Regions,
    scratch: &mut [u32],
) -> Result<(), Refusal>
    requires { WorkGiven job.now witness.now params regions scratch.old }
    ensures result_value { of_result result ≡ t_refusal job.now witness.now then g_refusal job.now witness.now }
    ensures unchanged { Unchanged (scratch_need (parameters job.now)) scratch.old scratch.new }
    ensures made { OnOk result (Committed job.now witness.now regions scratch.new) }
{
    let a_at = offsets::of_job(params, names::MATRIX_A);
    ajtai_commitment::commit_all(
        job,
        a_at,
        params.kappa,
        params.rank,
        witness,
        1,
        params.multiplicity,
        scratch,
        regions.t,
    );
    check_t(params, regions, scratch)?;
    g::compute_g(
        witness,
        1,
        params.multiplicity,
        params.rank,
        scratch,
        regions.g,
    );
    check_triangle(
        params,
        regions.g,
        params.t_2,
        params.bound_c,
        Refusal::DigitsOfG,
        scratch,
    )
}

// The same by the faster way.
fn commit_t_and_g(
    job: &[u32],
    witness: &[u32],
    params: EnvironmentParameters,
    regions: Regions,
    scratch: &mut [u32],
) -> Result<(), Refusal>
    requires { WorkGiven job.now witness.now params regions scratch.old }
    ensures result_value { of_result result ≡ t_refusal job.now witness.now then g_refusal job.now witness.now }
    ensures unchanged { Unchanged (scratch_need (parameters job.now)) scratch.old scratch.new }
    ensures made { OnOk result (Committed job.now witness.now regions scratch.new) }
{
    if plain_is_faster(params.rank, params.multiplicity) {
        commit_plain(job, witness, params, regions, scratch)
    } else {
        commit_ntt(job, witness, params, regions, scratch)
    }
}

// "Prover: 13, 14, 15": t and g.
pub fn commit(
    job: &[u32],
    witness: &[u32],
    params: EnvironmentParameters,
    regions: Regions,
    scratch: &mut [u32],
) -> Result<(), Refusal>
    requires { WorkGiven job.now witness.now params regions scratch.old }
    ensures result_value { of_result result ≡ first_refusal job.now witness.now }
    ensures unchanged { Unchanged (scratch_need (parameters job.now)) scratch.old scratch.new }
    ensures made { OnOk result (Committed job.now witness.now regions scratch.new) }
{
    common_instances::check_witness(witness, 1, params.rank, params.multiplicity, params.bound_a)?;
    commit_t_and_g(job, witness, params, regions, scratch)
}
