// The verdict on one transcript.
ghost use Rattle.std.specs.Prelude.{◌≡◌, ◌+◌, ◌≤◌, ◌<◌, length};
ghost use Rattle.spec_leaves.specs.Answer.{fine, of_judged, of_result};
ghost use Rattle.spec_protocol.specs.Parameters.{parameters};
ghost use Rattle.spec_protocol.specs.Layout.{scratch_need};
ghost use Rattle.spec_protocol.specs.Unchanged.{Unchanged};
ghost use Rattle.spec_protocol.specs.Mistyped.{verdict_of};
ghost use Rattle.spec_protocol.specs.Many.{many_need, part_refusal, part_verdict, row_count, RowsDone, window};
ghost use Rattle.admission_slices.specs.Admission.{Verifiable};
ghost use Rattle.api_answers.specs.Calls.{labrador_verdict};
ghost use Rattle.verify_many_admission.specs.Admitted.{ManyGiven};
ghost use Rattle.verify_many.specs.Windows.{PartReady, ReadyIfPassing};

use crate::judge::judge;
use api_answers::verdicts::LabradorVerdict;
use layout_sizes::buffers;
use relation_env_params::env_params::EnvironmentParameters;
use spec_leaves::answers::{Refusal, Rejection, Verdict};
use verify_many_admission::bounds::{randomness_bounds, transcript_bounds};

// With the parts of transcript m lent on, and its window of the scratch.
fn judge_window(
    job: &[u32],
    randomness: &[u32],
    transcript: &[u32],
    params: EnvironmentParameters,
    m: usize,
    scratch: &mut [u32],
) -> Result<usize, Rejection>
    requires verifiable { Verifiable job.now randomness.now transcript.now (scratch_need (parameters job.now)) params }
    requires m_bound { (m < 8) × (many_need (parameters job.now) (m + 1) ≤ length scratch.old) }
    requires rows_done { RowsDone job.now transcript.now (window (parameters job.now) scratch.old m) (row_count (parameters job.now)) }
    ensures result_value { of_judged result ≡ verdict_of job.now randomness.now transcript.now }
    ensures unchanged { Unchanged (many_need (parameters job.now) (m + 1)) scratch.old scratch.new }
{
    let need = buffers::scratch_length(params);
    let from = m * need;
    let to = from + need;
    judge(job, randomness, transcript, params, &mut scratch[from..to])
}

// Of transcript m, which passes 7 to 10.
fn judge_part(
    job: &[u32],
    randomness: &[u32],
    transcripts: &[u32],
    params: EnvironmentParameters,
    count: usize,
    m: usize,
    scratch: &mut [u32],
) -> Result<usize, Rejection>
    requires many_given { ManyGiven job.now count (length scratch.old) params × (m < count) }
    requires m_value { part_refusal (parameters job.now) count randomness.now transcripts.now m ≡ fine }
    requires part_ready { PartReady job.now count transcripts.now m scratch.old }
    ensures result_value { of_judged result ≡ part_verdict job.now count randomness.now transcripts.now m }
    ensures unchanged { Unchanged (many_need (parameters job.now) (m + 1)) scratch.old scratch.new }
{
    let r = randomness_bounds(randomness.len(), params, count, m);
    let r_from = r.from;
    let r_to = r.to;
    let t = transcript_bounds(transcripts.len(), params, count, m);
    let t_from = t.from;
    let t_to = t.to;
    judge_window(
        job,
        &randomness[r_from..r_to],
        &transcripts[t_from..t_to],
        params,
        m,
        scratch,
    )
}

// Of transcript m, by what is found of it: "A transcript that is refused doesn't alter the others".
pub fn verdict(
    job: &[u32],
    randomness: &[u32],
    transcripts: &[u32],
    params: EnvironmentParameters,
    count: usize,
    m: usize,
    found: Result<(), Refusal>,
    scratch: &mut [u32],
) -> LabradorVerdict
    requires many_given { ManyGiven job.now count (length scratch.old) params × (m < count) }
    requires found_value { of_result found ≡ part_refusal (parameters job.now) count randomness.now transcripts.now m }
    requires ready_if_passing { ReadyIfPassing job.now count randomness.now transcripts.now m scratch.old }
    ensures value { result ≡ labrador_verdict (part_verdict job.now count randomness.now transcripts.now m) }
    ensures unchanged { Unchanged (many_need (parameters job.now) (m + 1)) scratch.old scratch.new }
{
    match found {
        Ok(()) => {
            let judged = judge_part(job, randomness, transcripts, params, count, m, scratch);
            LabradorVerdict::from(Verdict::from(judged))
        }
        Err(refusal) => LabradorVerdict::from(refusal),
    }
}
