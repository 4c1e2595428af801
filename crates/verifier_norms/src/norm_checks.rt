// The norms of what the prover sends: checks 21 and 23, and 21 to 23 in order.
ghost use Rattle.std.specs.Prelude.{◌≡◌, IfOk};
ghost use Rattle.spec_leaves.specs.Answer.{of_checked};
ghost use Rattle.relation_env_params.specs.Parameters.{parameters_of};
ghost use Rattle.verifier_common.specs.Work.{Received};
ghost use Rattle.verifier_common.specs.Answers.{projection_norm};
ghost use Rattle.verifier_norms.specs.Order.{sum_within, norms};
ghost use Rattle.verifier_digits.specs.Taken.{Taken};

use layout_sizes::{names, offsets};
use relation_env_params::env_params::EnvironmentParameters;
use ring_zq::norms;
use spec_leaves::answers::{FailedCheck, Rejection};
use verifier_common::exchange::Exchange;
use verifier_constant_terms::constant_terms::check_constant_terms;
use verifier_digits::SentDigits;

// "21 norm of p above 128·beta_sq (norm and limit given)." A beta_sq below the norm is so small that the limit fits.
pub fn check_projection_norm(
    transcript: &[u32],
    params: EnvironmentParameters,
) -> Result<(), Rejection>
    requires { Received transcript.now params }
    ensures { of_checked result ≡ projection_norm (parameters_of params) transcript.now }
{
    let norm = norms::norm_of(transcript, offsets::of_transcript(params, names::P), 256);
    if norm <= params.beta_sq {
        return Ok(());
    }
    let limit = 128 * params.beta_sq;
    if norm <= limit {
        Ok(())
    } else {
        Err(Rejection::Failed(FailedCheck::ProjectionNorm { norm, limit }))
    }
}

// "23 digit norms of z with two" parts, "t and h with t1, g with t2 sum above beta_prime_sq (sum and limit)."
fn check_norm_sum(sum: u128, limit: u128) -> Result<(), Rejection>
    ensures { of_checked result ≡ sum_within sum limit }
{
    if sum <= limit {
        Ok(())
    } else {
        Err(Rejection::Failed(FailedCheck::NormSum { sum, limit }))
    }
}

// 21, 22 and 23, in order, and where they pass what is found of the digits: they are taken once, for 23 and for 14 to 16.
pub fn check_norms(exchange: &Exchange<'_>) -> Result<SentDigits, Rejection>
    ensures result_value { of_checked result ≡ norms exchange.now.job.now exchange.now.randomness.now exchange.now.transcript.now }
    ensures taken { IfOk result (λ digits. Taken (parameters_of exchange.now.params) exchange.now.transcript.now digits) }
{
    check_projection_norm(exchange.transcript, exchange.params)?;
    check_constant_terms(exchange)?;
    let digits = verifier_digits::take(exchange.transcript, exchange.params);
    check_norm_sum(digits.sum, exchange.params.beta_prime_sq)?;
    Ok(digits)
}
