// The call for every input.
ghost use Rattle.std.specs.Prelude.{◌≡◌, ◌*◌, ◌≤◌, length};
ghost use Rattle.spec_leaves.specs.Answer.{of_judged, of_failed};
ghost use Rattle.spec_protocol.specs.Parameters.{parameters};
ghost use Rattle.spec_protocol.specs.Layout.{scratch_need};
ghost use Rattle.spec_protocol.specs.Prover.{zeroed};
ghost use Rattle.spec_protocol.specs.Mistyped.{verdict_of, list_need};
ghost use Rattle.admission_slices.specs.Admission.{Verifiable};
ghost use Rattle.verifier_common.specs.Work.{Sent};
ghost use Rattle.mistyped.specs.Told.{Judged, Worked, MistypedCall};

use crate::answers;
use crate::answers::MistypedAnswer;
use relation_env_params::env_params::EnvironmentParameters;
use spec_leaves::answers::{FailedCheck, Rejection};
use verifier::verify;

// The list where check 22 is the failed one, and 32 where it is another.
fn judge_failed(
    job: &[u32],
    randomness: &[u32],
    transcript: &[u32],
    params: EnvironmentParameters,
    check: FailedCheck,
    list: &mut [u32],
) -> MistypedAnswer
    requires sent { Sent job.now randomness.now transcript.now params × (2 * params.constraint_l ≤ length list.old) }
    requires check_value { of_failed check ≡ verdict_of job.now randomness.now transcript.now }
    ensures { Judged job.now randomness.now transcript.now list.old list.new result }
{
    let FailedCheck::B0Mismatch { .. } = check else {
        return answers::refused(32, 0);
    };
    let entries = mistyped_entries::enter_all(job, randomness, transcript, params, list);
    answers::counted(entries)
}

// "After the verifier's refusals, 14 to 16 included […] it refuses with 32 where check 22 isn't the failed one, and with 33 where the list would be empty".
fn judge(
    job: &[u32],
    randomness: &[u32],
    transcript: &[u32],
    params: EnvironmentParameters,
    judged: Result<usize, Rejection>,
    list: &mut [u32],
) -> MistypedAnswer
    requires sent { Sent job.now randomness.now transcript.now params × (2 * params.constraint_l ≤ length list.old) }
    requires verdict_value { of_judged judged ≡ verdict_of job.now randomness.now transcript.now }
    ensures { Judged job.now randomness.now transcript.now list.old list.new result }
{
    match judged {
        Ok(_) => answers::refused(32, 0),
        Err(Rejection::Refused(refusal)) => MistypedAnswer::from(refusal),
        Err(Rejection::Failed(check)) => {
            judge_failed(job, randomness, transcript, params, check, list)
        }
    }
}

// The work of a call that is refused nothing before it: the verifier's, once, and what comes of its verdict.
fn work(
    job: &[u32],
    randomness: &[u32],
    transcript: &[u32],
    params: EnvironmentParameters,
    scratch: &mut [u32],
    list: &mut [u32],
) -> MistypedAnswer
    requires { Verifiable job.now randomness.now transcript.now (length scratch.old) params × (2 * params.constraint_l ≤ length list.old) }
    ensures worked { Worked job.now randomness.now transcript.now list.old list.new result }
    ensures scratch_after { scratch.new ≡ zeroed (scratch_need (parameters job.now)) scratch.old }
{
    ring_words::clear(list, 2 * params.constraint_l);
    let judged = verify::work_and_clear(job, randomness, transcript, params, scratch);
    judge(job, randomness, transcript, params, judged, list)
}

// "lists each index l for which adding one number to b0[l] alone would let check 22 pass".
pub fn mistyped(
    job: &[u32],
    randomness: &[u32],
    transcript: &[u32],
    scratch: &mut [u32],
    list: &mut [u32],
) -> MistypedAnswer
    ensures { MistypedCall job.now randomness.now transcript.now scratch.old list.old scratch.new list.new result }
{
    match admission_order::verifier::admit(job, randomness, transcript, scratch.len()) {
        Err(refusal) => MistypedAnswer::from(refusal),
        Ok(params) => {
            let need = 2 * params.constraint_l;
            if list.len() < need {
                return answers::refused(2, need);
            }
            work(job, randomness, transcript, params, scratch, list)
        }
    }
}
