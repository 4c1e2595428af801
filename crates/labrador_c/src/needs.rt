// The lengths that a caller must lend.
ghost use Rattle.std.specs.Prelude.{◌≡◌};
ghost use Rattle.spec_protocol.specs.Parameters.{parameters};
ghost use Rattle.spec_protocol.specs.Layout.{span, transcript_sections, job_refusal, scratch_need};
ghost use Rattle.api_answers.specs.Calls.{labrador_need};

use api_answers::verdicts::LabradorNeed;

// The words of scratch that a call with this job needs.
#[unsafe(no_mangle)]
pub extern "C" fn labrador_scratch_need(job: &[u32]) -> LabradorNeed
    ensures { result ≡ labrador_need (job_refusal job.now) (scratch_need (parameters job.now)) }
{
    labrador::needs::labrador_scratch_need(job)
}

// The words of output that the prover's whole call with this job needs, which are the transcript's.
#[unsafe(no_mangle)]
pub extern "C" fn labrador_output_need(job: &[u32]) -> LabradorNeed
    ensures { result ≡ labrador_need (job_refusal job.now) (span (transcript_sections (parameters job.now))) }
{
    labrador::needs::labrador_output_need(job)
}
