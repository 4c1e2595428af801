// The verifier's call on whole slices, for every input.
ghost use Rattle.std.specs.Prelude.{◌≡◌, length};
ghost use Rattle.spec_leaves.specs.Answer.{of_checked, of_judged, of_verdict};
ghost use Rattle.spec_protocol.specs.Parameters.{parameters};
ghost use Rattle.spec_protocol.specs.Layout.{scratch_need};
ghost use Rattle.spec_protocol.specs.Prover.{zeroed};
ghost use Rattle.spec_protocol.specs.Verifier.{verify as verdict, verify_scratch};
ghost use Rattle.admission_slices.specs.Admission.{Verifiable};
ghost use Rattle.core_workspace.specs.Ready.{Ready};
ghost use Rattle.core_workspace.specs.Holds.{Unchanged};
ghost use Rattle.relation_env_params.specs.Parameters.{parameters_of};
ghost use Rattle.verifier_digits.specs.Taken.{Taken};
ghost use Rattle.verifier.specs.Order.{rest, all_checks};

use admission_order::verifier;
use layout_regions::Regions;
use layout_sizes::buffers;
use relation_env_params::env_params::EnvironmentParameters;
use spec_leaves::answers::{Rejection, Verdict};
use verifier_commitments::outer_commitments;
use verifier_common::exchange::Exchange;
use verifier_digits::SentDigits;
use verifier_norms::norm_checks;
use verifier_relations::relations;

// The checks from 24 on, in order.
fn check_rest(
    exchange: &Exchange<'_>,
    regions: Regions,
    scratch: &mut [u32],
    digits: SentDigits,
) -> Result<(), Rejection>
    requires { Ready exchange.now.job.now exchange.now.params regions scratch.old × Taken (parameters_of exchange.now.params) exchange.now.transcript.now digits }
    ensures result_value { of_checked result ≡ rest exchange.now.job.now exchange.now.randomness.now exchange.now.transcript.now }
    ensures unchanged { Unchanged (scratch_need (parameters exchange.now.job.now)) scratch.old scratch.new }
{
    let job = exchange.job;
    let transcript = exchange.transcript;
    let params = exchange.params;
    relations::check_relations(exchange, regions, scratch)?;
    outer_commitments::check_commitments(job, transcript, params, regions, scratch, digits)
}

// All checks, in order; an acceptance has the number of cells with something left.
pub fn check_all(
    exchange: &Exchange<'_>,
    regions: Regions,
    scratch: &mut [u32],
) -> Result<usize, Rejection>
    requires { Ready exchange.now.job.now exchange.now.params regions scratch.old }
    ensures result_value { of_judged result ≡ all_checks exchange.now.job.now exchange.now.randomness.now exchange.now.transcript.now }
    ensures unchanged { Unchanged (scratch_need (parameters exchange.now.job.now)) scratch.old scratch.new }
{
    let digits = norm_checks::check_norms(exchange)?;
    check_rest(exchange, regions, scratch, digits)?;
    Ok(digits.cells_left)
}

// The work of a call that is refused nothing before it: "After any later answer scratch is zero to the length needed".
pub fn work_and_clear(
    job: &[u32],
    randomness: &[u32],
    transcript: &[u32],
    params: EnvironmentParameters,
    scratch: &mut [u32],
) -> Result<usize, Rejection>
    requires { Verifiable job.now randomness.now transcript.now (length scratch.old) params }
    ensures result_value { of_judged result ≡ all_checks job.now randomness.now transcript.now }
    ensures scratch_after { scratch.new ≡ zeroed (scratch_need (parameters job.now)) scratch.old }
{
    let exchange = Exchange {
        job,
        randomness,
        transcript,
        params,
    };
    let regions = layout_regions::lay_out(
        params.rank,
        params.multiplicity,
        params.kappa,
        params.const_agg_length,
    );
    let answer = check_all(&exchange, regions, scratch);
    let need = buffers::scratch_length(params);
    ring_words::clear(scratch, need);
    answer
}

// The verifier: its verdict and scratch.
pub fn verify(job: &[u32], randomness: &[u32], transcript: &[u32], scratch: &mut [u32]) -> Verdict
    ensures result_value { of_verdict result ≡ verdict job.now randomness.now transcript.now (length scratch.old) }
    ensures scratch_after { scratch.new ≡ verify_scratch job.now randomness.now transcript.now scratch.old }
{
    match verifier::admit(job, randomness, transcript, scratch.len()) {
        Ok(params) => Verdict::from(work_and_clear(job, randomness, transcript, params, scratch)),
        Err(refusal) => Verdict::Refused(refusal),
    }
}
