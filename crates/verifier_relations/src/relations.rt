// The relations between what the prover sends and the statement: checks 24 to 26, and 24 to 27 in order.
// `Ready` is no field of `Exchange`: it speaks of the scratch, which each check is lent with other words.
ghost use Rattle.std.specs.Prelude.{◌≡◌};
ghost use Rattle.spec_leaves.specs.Answer.{of_checked};
ghost use Rattle.spec_leaves.specs.Ring.{words, element};
ghost use Rattle.spec_protocol.specs.Parameters.{parameters};
ghost use Rattle.spec_protocol.specs.Layout.{scratch_need};
ghost use Rattle.core_workspace.specs.Ready.{Ready};
ghost use Rattle.core_workspace.specs.Holds.{Unchanged};
ghost use Rattle.relation_env_params.specs.Parameters.{parameters_of};
ghost use Rattle.verifier_common.specs.Work.{Received, Posed};
ghost use Rattle.verifier_relations.specs.Order.{openings, aggregated, relations};
ghost use Rattle.verifier_relations.specs.Held.{Challenged, Prepared};
ghost use Rattle.verifier_relations.specs.Weighed.{challenges_in, ChallengesWithin, az_of, z_inner_of, phi_of, φ_lines};

use crate::lines;
use core_workspace;
use layout_regions::Regions;
use layout_sizes::{names, offsets};
use relation_env_params::env_params::EnvironmentParameters;
use ring_inner_product;
use ring_rq::rq::Rq;
use ring_rq_matrix;
use spec_leaves::answers::{FailedCheck, Rejection};
use verifier_aggregated::check_relation;
use verifier_common::equal;
use verifier_common::exchange::Exchange;

// "24 A·z is not Σ t_i·c_i."
pub fn check_az(
    job: &[u32],
    transcript: &[u32],
    params: EnvironmentParameters,
    regions: Regions,
    scratch: &[u32],
) -> Result<(), Rejection>
    requires { Posed job.now transcript.now params × Ready job.now params regions scratch.now }
    ensures { of_checked result ≡ az_of job.now transcript.now (challenges_in scratch.now regions) }
{
    let a_at = offsets::of_job(params, names::MATRIX_A);
    let z_at = offsets::of_transcript(params, names::Z);
    let t_at = offsets::of_transcript(params, names::T);
    let n = params.rank;
    let kappa = params.kappa;
    for k in 0..kappa {
        let row = a_at + 64 * (k * n);
        let left = ring_inner_product::inner_product(job, row, 64, transcript, z_at, 64, n);
        let right = ring_rq_matrix::column_sum(
            transcript,
            t_at,
            kappa,
            k,
            scratch,
            regions.challenges,
            params.multiplicity,
        );
        if !equal::same(left, right) {
            return Err(Rejection::Failed(FailedCheck::Az));
        }
    }
    Ok(())
}

// "25 ⟨z,z⟩ is not Σ g_ij·c_i·c_j."
pub fn check_z_inner(
    transcript: &[u32],
    params: EnvironmentParameters,
    regions: Regions,
    scratch: &[u32],
) -> Result<(), Rejection>
    requires { Received transcript.now params × ChallengesWithin params regions scratch.now }
    ensures { of_checked result ≡ z_inner_of (parameters_of params) transcript.now (challenges_in scratch.now regions) }
{
    let z_at = offsets::of_transcript(params, names::Z);
    let g_at = offsets::of_transcript(params, names::G);
    let left = ring_inner_product::inner_product(
        transcript,
        z_at,
        64,
        transcript,
        z_at,
        64,
        params.rank,
    );
    let right = ring_rq_matrix::sum_of_weighted(
        transcript,
        g_at,
        scratch,
        regions.challenges,
        params.multiplicity,
    );
    if equal::same(left, right) {
        Ok(())
    } else {
        Err(Rejection::Failed(FailedCheck::ZInner))
    }
}

// "26 twice Σ⟨φ_i,z⟩·c_i is not Σ h_ij·c_i·c_j.", of the former sum.
pub fn check_phi(
    lines: Rq,
    transcript: &[u32],
    params: EnvironmentParameters,
    regions: Regions,
    scratch: &[u32],
) -> Result<(), Rejection>
    requires { Received transcript.now params × ChallengesWithin params regions scratch.now }
    ensures { of_checked result ≡ phi_of (parameters_of params) transcript.now (challenges_in scratch.now regions) (element lines.coeffs) }
{
    let h_at = offsets::of_transcript(params, names::H);
    let right = ring_rq_matrix::sum_of_weighted(
        transcript,
        h_at,
        scratch,
        regions.challenges,
        params.multiplicity,
    );
    let twice = lines.add(lines);
    if equal::same(twice, right) {
        Ok(())
    } else {
        Err(Rejection::Failed(FailedCheck::Phi))
    }
}

// 24 and 25, in order, of the challenges.
pub fn check_openings(
    exchange: &Exchange<'_>,
    regions: Regions,
    scratch: &mut [u32],
) -> Result<(), Rejection>
    requires { Ready exchange.now.job.now exchange.now.params regions scratch.old }
    ensures result_value { of_checked result ≡ openings exchange.now.job.now exchange.now.randomness.now exchange.now.transcript.now }
    ensures unchanged { Unchanged (scratch_need (parameters exchange.now.job.now)) scratch.old scratch.new }
    ensures challenged { Challenged exchange.now.job.now exchange.now.randomness.now regions scratch.new }
{
    core_workspace::generate_challenges(exchange.randomness, exchange.params, regions, scratch);
    check_az(
        exchange.job,
        exchange.transcript,
        exchange.params,
        regions,
        scratch,
    )?;
    check_z_inner(exchange.transcript, exchange.params, regions, scratch)
}

// 26 and 27, in order, of Σ⟨φ_i,z⟩·c_i and of the a'' in its region.
pub fn check_phi_and_relation(
    lines: Rq,
    exchange: &Exchange<'_>,
    regions: Regions,
    scratch: &mut [u32],
) -> Result<(), Rejection>
    requires sent { Ready exchange.now.job.now exchange.now.params regions scratch.old × Prepared exchange.now.job.now exchange.now.randomness.now regions scratch.old }
    requires coeffs_value { lines.coeffs ≡ words (φ_lines exchange.now.job.now exchange.now.randomness.now exchange.now.transcript.now) }
    ensures result_value { of_checked result ≡ aggregated exchange.now.job.now exchange.now.randomness.now exchange.now.transcript.now }
    ensures unchanged { Unchanged (scratch_need (parameters exchange.now.job.now)) scratch.old scratch.new }
{
    check_phi(
        lines,
        exchange.transcript,
        exchange.params,
        regions,
        scratch,
    )?;
    core_workspace::a(
        exchange.job,
        exchange.randomness,
        exchange.params,
        regions,
        scratch,
    );
    check_relation(exchange, regions, scratch)
}

// 26 and 27, in order, of the aggregated constraints.
pub fn check_aggregated(
    exchange: &Exchange<'_>,
    regions: Regions,
    scratch: &mut [u32],
) -> Result<(), Rejection>
    requires { Ready exchange.now.job.now exchange.now.params regions scratch.old × Challenged exchange.now.job.now exchange.now.randomness.now regions scratch.old }
    ensures result_value { of_checked result ≡ aggregated exchange.now.job.now exchange.now.randomness.now exchange.now.transcript.now }
    ensures unchanged { Unchanged (scratch_need (parameters exchange.now.job.now)) scratch.old scratch.new }
{
    core_workspace::double_prime(
        exchange.job,
        exchange.randomness,
        exchange.params,
        regions,
        scratch,
    );
    let lines = lines::sum_of_lines(exchange, regions, scratch);
    check_phi_and_relation(lines, exchange, regions, scratch)
}

// 24 to 27, in order.
pub fn check_relations(
    exchange: &Exchange<'_>,
    regions: Regions,
    scratch: &mut [u32],
) -> Result<(), Rejection>
    requires { Ready exchange.now.job.now exchange.now.params regions scratch.old }
    ensures result_value { of_checked result ≡ relations exchange.now.job.now exchange.now.randomness.now exchange.now.transcript.now }
    ensures unchanged { Unchanged (scratch_need (parameters exchange.now.job.now)) scratch.old scratch.new }
{
    check_openings(exchange, regions, scratch)?;
    check_aggregated(exchange, regions, scratch)
}
