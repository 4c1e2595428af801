// The length of a job's transcript.
ghost use Rattle.std.specs.Prelude.{◌≡◌};
ghost use Rattle.spec_leaves.specs.Answer.{result_of};
ghost use Rattle.spec_protocol.specs.Parameters.{parameters};
ghost use Rattle.spec_protocol.specs.Layout.{span, transcript_sections, job_refusal};

use crate::job;
use layout_sizes::buffers;

// The length of a transcript of this job; 0 where the job is refused.
pub fn transcript_length(job: &[u32]) -> usize
    ensures { result ≡ result_of (job_refusal job.now) (span (transcript_sections (parameters job.now))) 0 }
{
    match job::check(job) {
        Ok(params) => buffers::output_length(params, 0, 8),
        Err(_) => 0,
    }
}
