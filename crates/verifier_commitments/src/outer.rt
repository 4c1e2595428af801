// The outer commitments made again of what the prover sends, and compared: 28 and 29.
// Two functions: u1 is of two matrices and two sections, u2 of one, and what they share is the comparison, which is `same_words`.
ghost use Rattle.std.specs.Prelude.{◌≡◌};
ghost use Rattle.spec_leaves.specs.Answer.{of_checked};
ghost use Rattle.spec_protocol.specs.Parameters.{parameters};
ghost use Rattle.spec_protocol.specs.Layout.{scratch_need};
ghost use Rattle.core_workspace.specs.Ready.{Ready};
ghost use Rattle.core_workspace.specs.Holds.{Unchanged};
ghost use Rattle.verifier_common.specs.Work.{Posed};
ghost use Rattle.verifier_common.specs.Answers.{u1_differs, u2_differs};

use commitments_outer::outer_commitments;
use commitments_outer::outer_commitments::Digits;
use layout_regions::Regions;
use layout_sizes::{names, offsets, slices};
use relation_env_params::env_params::EnvironmentParameters;
use spec_leaves::answers::{FailedCheck, Rejection};
use verifier_common::equal;

// "28 u1 differs"
pub fn check_u1(
    job: &[u32],
    transcript: &[u32],
    params: EnvironmentParameters,
    regions: Regions,
    scratch: &mut [u32],
) -> Result<(), Rejection>
    requires { Posed job.now transcript.now params × Ready job.now params regions scratch.old }
    ensures result_value { of_checked result ≡ u1_differs job.now transcript.now }
    ensures unchanged { Unchanged (scratch_need (parameters job.now)) scratch.old scratch.new }
{
    let t = Digits {
        at: offsets::of_transcript(params, names::T),
        cells: params.multiplicity * params.kappa,
        parts: params.t_1,
    };
    let g = Digits {
        at: offsets::of_transcript(params, names::G),
        cells: slices::triangle(params.multiplicity),
        parts: params.t_2,
    };
    let b_at = offsets::of_job(params, names::MATRIX_B);
    let c_at = offsets::of_job(params, names::MATRIX_C);
    let rows = params.kappa_1;
    outer_commitments::compute_u1(
        job, b_at, c_at, rows, transcript, t, g, params.b, scratch, regions.u,
    );
    if equal::same_words(
        transcript,
        offsets::of_transcript(params, names::U1),
        scratch,
        regions.u,
        64 * rows,
    ) {
        Ok(())
    } else {
        Err(Rejection::Failed(FailedCheck::OuterCommitU1))
    }
}

// "29 u2 differs"
pub fn check_u2(
    job: &[u32],
    transcript: &[u32],
    params: EnvironmentParameters,
    regions: Regions,
    scratch: &mut [u32],
) -> Result<(), Rejection>
    requires { Posed job.now transcript.now params × Ready job.now params regions scratch.old }
    ensures result_value { of_checked result ≡ u2_differs job.now transcript.now }
    ensures unchanged { Unchanged (scratch_need (parameters job.now)) scratch.old scratch.new }
{
    let h = Digits {
        at: offsets::of_transcript(params, names::H),
        cells: slices::triangle(params.multiplicity),
        parts: params.t_1,
    };
    let d_at = offsets::of_job(params, names::MATRIX_D);
    let rows = params.kappa_2;
    outer_commitments::compute_u2(job, d_at, rows, transcript, h, params.b, scratch, regions.u);
    if equal::same_words(
        transcript,
        offsets::of_transcript(params, names::U2),
        scratch,
        regions.u,
        64 * rows,
    ) {
        Ok(())
    } else {
        Err(Rejection::Failed(FailedCheck::OuterCommitU2))
    }
}
