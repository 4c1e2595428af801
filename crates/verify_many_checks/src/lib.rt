// The checks 24, 28 and 29 of one transcript, from the products of the rows that stand in its window of the scratch (document 02, Item 11).
#![tactic(auto)]

ghost use Rattle.std.specs.Prelude.{◌≡◌, ◌+◌, ◌*◌, ◌≤◌, ◌<◌, length};
ghost use Rattle.math.specs.lists.Part.{part};
ghost use Rattle.spec_leaves.specs.Answer.{of_checked};
ghost use Rattle.spec_protocol.specs.Parameters.{parameters};
ghost use Rattle.spec_protocol.specs.Layout.{scratch_need};
ghost use Rattle.spec_protocol.specs.Many.{row_count, products_at, RowsDone};
ghost use Rattle.relation_env_params.specs.Parameters.{parameters_of};
ghost use Rattle.layout_sizes.specs.Sizes.{Sized};
ghost use Rattle.core_workspace.specs.Ready.{Ready};
ghost use Rattle.verifier_common.specs.Work.{Posed};
ghost use Rattle.verifier_common.specs.Answers.{u1_differs, u2_differs};
ghost use Rattle.verifier_relations.specs.Weighed.{az_of, challenges_in};

use layout_regions::Regions;
use layout_sizes::{buffers, names, offsets};
use relation_env_params::env_params::EnvironmentParameters;
use ring_rq::rq::Rq;
use ring_rq_matrix;
use ring_words;
use spec_leaves::answers::{FailedCheck, Rejection};
use verifier_common::equal;

// The product of a row.
fn product(window: &[u32], params: EnvironmentParameters, row: usize) -> Rq
    requires { Sized (parameters_of params) × (row < 64) × (scratch_need (parameters_of params) ≤ length window.now) }
    ensures { result.coeffs ≡ part window.now (products_at (parameters_of params) + 64 * row) 64 }
{
    let at = buffers::scratch_length(params) - 4096;
    ring_words::load(window, at + 64 * row)
}

// "24 A·z is not Σ t_i·c_i.", of the challenges in their region.
pub fn check_az(
    job: &[u32],
    transcript: &[u32],
    params: EnvironmentParameters,
    regions: Regions,
    window: &[u32],
) -> Result<(), Rejection>
    requires posed { Posed job.now transcript.now params × Ready job.now params regions window.now }
    requires rows_done { RowsDone job.now transcript.now window.now (row_count (parameters job.now)) }
    ensures { of_checked result ≡ az_of job.now transcript.now (challenges_in window.now regions) }
{
    let t_at = offsets::of_transcript(params, names::T);
    let kappa = params.kappa;
    for k in 0..kappa {
        let left = product(window, params, k);
        let right = ring_rq_matrix::column_sum(
            transcript,
            t_at,
            kappa,
            k,
            window,
            regions.challenges,
            params.multiplicity,
        );
        if !equal::same(left, right) {
            return Err(Rejection::Failed(FailedCheck::Az));
        }
    }
    Ok(())
}

// "28 u1 differs": row k of B's product and of C's, added.
pub fn check_u1(
    job: &[u32],
    transcript: &[u32],
    params: EnvironmentParameters,
    window: &[u32],
) -> Result<(), Rejection>
    requires posed { Posed job.now transcript.now params × (scratch_need (parameters job.now) ≤ length window.now) }
    requires rows_done { RowsDone job.now transcript.now window.now (row_count (parameters job.now)) }
    ensures { of_checked result ≡ u1_differs job.now transcript.now }
{
    let u_at = offsets::of_transcript(params, names::U1);
    let rows = params.kappa_1;
    let b = params.kappa;
    let c = b + rows;
    for k in 0..rows {
        let sent = ring_words::load(transcript, u_at + 64 * k);
        let left = product(window, params, b + k);
        let right = product(window, params, c + k);
        if !equal::same(sent, left.add(right)) {
            return Err(Rejection::Failed(FailedCheck::OuterCommitU1));
        }
    }
    Ok(())
}

// "29 u2 differs": the products of D's rows.
pub fn check_u2(
    job: &[u32],
    transcript: &[u32],
    params: EnvironmentParameters,
    window: &[u32],
) -> Result<(), Rejection>
    requires posed { Posed job.now transcript.now params × (scratch_need (parameters job.now) ≤ length window.now) }
    requires rows_done { RowsDone job.now transcript.now window.now (row_count (parameters job.now)) }
    ensures { of_checked result ≡ u2_differs job.now transcript.now }
{
    let u_at = offsets::of_transcript(params, names::U2);
    let rows = params.kappa_2;
    let d = params.kappa + params.kappa_1 + params.kappa_1;
    for k in 0..rows {
        let sent = ring_words::load(transcript, u_at + 64 * k);
        if !equal::same(sent, product(window, params, d + k)) {
            return Err(Rejection::Failed(FailedCheck::OuterCommitU2));
        }
    }
    Ok(())
}
