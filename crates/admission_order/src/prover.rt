// The order of refusals before the work of the prover's calls, as one answer.
ghost use Rattle.std.specs.Prelude.{◌≡◌, IfOk};
ghost use Rattle.spec_leaves.specs.Answer.{of_result};
ghost use Rattle.spec_protocol.specs.Prover.{prove_refusal};
ghost use Rattle.admission_slices.specs.Admission.{call_of, Provable};

use admission_buffers::{output, scratch};
use admission_slices::calls::Call;
use admission_slices::{job, randomness, witness};
use relation_env_params::env_params::EnvironmentParameters;
use spec_leaves::answers::Refusal;

// "section one by 3, then 4, 5; other job sections 3, 6; 7, 8; 11, 12 […]; 1, 2; then the work"
pub fn admit(
    call: Call,
    job: &[u32],
    randomness: &[u32],
    witness: &[u32],
    scratch: usize,
    output: usize,
) -> Result<EnvironmentParameters, Refusal>
    ensures result_value { of_result result ≡ prove_refusal (call_of call) job.now randomness.now witness.now scratch output }
    ensures at { IfOk result (Provable (call_of call) job.now randomness.now witness.now scratch output) }
{
    let params = job::check(job)?;
    randomness::check(randomness, params, call)?;
    witness::check(witness, params)?;
    scratch::check(scratch, params)?;
    output::check(output, params, call)?;
    Ok(params)
}
