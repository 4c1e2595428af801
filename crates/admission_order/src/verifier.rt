// The order of refusals before the verifier's work, as one answer.
ghost use Rattle.std.specs.Prelude.{◌≡◌, IfOk};
ghost use Rattle.spec_leaves.specs.Answer.{of_result};
ghost use Rattle.spec_protocol.specs.Verifier.{verify_refusal};
ghost use Rattle.admission_slices.specs.Admission.{Verifiable};

use admission_buffers::scratch;
use admission_slices::calls::Call;
use admission_slices::{job, randomness, transcript};
use relation_env_params::env_params::EnvironmentParameters;
use spec_leaves::answers::Refusal;

// "section one by 3, then 4, 5; other job sections 3, 6; 7, 8; […] 9, 10; 1 […]; then the work"; "The verifier has no output and no 2."
pub fn admit(
    job: &[u32],
    randomness: &[u32],
    transcript: &[u32],
    scratch: usize,
) -> Result<EnvironmentParameters, Refusal>
    ensures result_value { of_result result ≡ verify_refusal job.now randomness.now transcript.now scratch }
    ensures at { IfOk result (Verifiable job.now randomness.now transcript.now scratch) }
{
    let params = job::check(job)?;
    randomness::check(randomness, params, Call::Whole)?;
    transcript::check(transcript, params)?;
    scratch::check(scratch, params)?;
    Ok(params)
}
