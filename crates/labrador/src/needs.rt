// The lengths that a caller must lend.
ghost use Rattle.std.specs.Prelude.{◌≡◌, IfOk};
ghost use Rattle.spec_leaves.specs.Answer.{of_result};
ghost use Rattle.spec_protocol.specs.Parameters.{parameters};
ghost use Rattle.spec_protocol.specs.Layout.{span, transcript_sections, job_refusal, scratch_need};
ghost use Rattle.api_answers.specs.Calls.{labrador_need};

use admission_slices::job;
use api_answers::verdicts::LabradorNeed;
use layout_sizes::buffers;
use spec_leaves::answers::Refusal;

// The words of scratch that a call with this job needs.
fn scratch_length(job: &[u32]) -> Result<usize, Refusal>
    ensures found { of_result result ≡ job_refusal job.now }
    ensures words { IfOk result (λ words. words ≡ scratch_need (parameters job.now)) }
{
    let params = job::check(job)?;
    Ok(buffers::scratch_length(params))
}

pub fn labrador_scratch_need(job: &[u32]) -> LabradorNeed
    ensures { result ≡ labrador_need (job_refusal job.now) (scratch_need (parameters job.now)) }
{
    LabradorNeed::from(scratch_length(job))
}

// The words of output that the prover's whole call with this job needs, which are the transcript's.
fn output_length(job: &[u32]) -> Result<usize, Refusal>
    ensures found { of_result result ≡ job_refusal job.now }
    ensures words { IfOk result (λ words. words ≡ span (transcript_sections (parameters job.now))) }
{
    let params = job::check(job)?;
    Ok(buffers::output_length(params, 0, 8))
}

pub fn labrador_output_need(job: &[u32]) -> LabradorNeed
    ensures { result ≡ labrador_need (job_refusal job.now) (span (transcript_sections (parameters job.now))) }
{
    LabradorNeed::from(output_length(job))
}
