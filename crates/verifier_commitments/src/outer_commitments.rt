// The outer commitments to what the prover sends: 14, 15 and 28; 16 and 29.
ghost use Rattle.std.specs.Prelude.{◌≡◌};
ghost use Rattle.spec_leaves.specs.Answer.{of_result, of_checked};
ghost use Rattle.spec_protocol.specs.Parameters.{parameters};
ghost use Rattle.spec_protocol.specs.Layout.{scratch_need};
ghost use Rattle.core_workspace.specs.Ready.{Ready};
ghost use Rattle.core_workspace.specs.Holds.{Unchanged};
ghost use Rattle.relation_env_params.specs.Parameters.{parameters_of};
ghost use Rattle.verifier_common.specs.Work.{Posed};
ghost use Rattle.verifier_digits.specs.Taken.{Taken, t_and_g_found, h_found};
ghost use Rattle.verifier_commitments.specs.Order.{first_commitment, second_commitment, commitments};

use crate::outer::{check_u1, check_u2};
use layout_regions::Regions;
use relation_env_params::env_params::EnvironmentParameters;
use spec_leaves::answers::{Refusal, Rejection};
use verifier_digits::SentDigits;

// "14 digits of t above B's bound, 15 of g above C's", by what is found of them.
pub fn check_t_and_g(digits: SentDigits) -> Result<(), Refusal>
    ensures { of_result result ≡ t_and_g_found digits }
{
    if !digits.t_within {
        return Err(Refusal::DigitsOfT);
    }
    if !digits.g_within {
        return Err(Refusal::DigitsOfG);
    }
    Ok(())
}

// "16 of h above D's", by what is found of them.
pub fn check_h(digits: SentDigits) -> Result<(), Refusal>
    ensures { of_result result ≡ h_found digits }
{
    if digits.h_within {
        Ok(())
    } else {
        Err(Refusal::DigitsOfH)
    }
}

// 14, 15 and 28, in order.
pub fn check_first_commitment(
    job: &[u32],
    transcript: &[u32],
    params: EnvironmentParameters,
    regions: Regions,
    scratch: &mut [u32],
    digits: SentDigits,
) -> Result<(), Rejection>
    requires { Posed job.now transcript.now params × Ready job.now params regions scratch.old × Taken (parameters_of params) transcript.now digits }
    ensures result_value { of_checked result ≡ first_commitment job.now transcript.now }
    ensures unchanged { Unchanged (scratch_need (parameters job.now)) scratch.old scratch.new }
{
    check_t_and_g(digits)?;
    check_u1(job, transcript, params, regions, scratch)
}

// 16 and 29, in order.
pub fn check_second_commitment(
    job: &[u32],
    transcript: &[u32],
    params: EnvironmentParameters,
    regions: Regions,
    scratch: &mut [u32],
    digits: SentDigits,
) -> Result<(), Rejection>
    requires { Posed job.now transcript.now params × Ready job.now params regions scratch.old × Taken (parameters_of params) transcript.now digits }
    ensures result_value { of_checked result ≡ second_commitment job.now transcript.now }
    ensures unchanged { Unchanged (scratch_need (parameters job.now)) scratch.old scratch.new }
{
    check_h(digits)?;
    check_u2(job, transcript, params, regions, scratch)
}

// 14, 15, 28, 16 and 29, in order.
pub fn check_commitments(
    job: &[u32],
    transcript: &[u32],
    params: EnvironmentParameters,
    regions: Regions,
    scratch: &mut [u32],
    digits: SentDigits,
) -> Result<(), Rejection>
    requires { Posed job.now transcript.now params × Ready job.now params regions scratch.old × Taken (parameters_of params) transcript.now digits }
    ensures result_value { of_checked result ≡ commitments job.now transcript.now }
    ensures unchanged { Unchanged (scratch_need (parameters job.now)) scratch.old scratch.new }
{
    check_first_commitment(job, transcript, params, regions, scratch, digits)?;
    check_second_commitment(job, transcript, params, regions, scratch, digits)
}
