// The call for every input.
ghost use Rattle.std.specs.Prelude.{◌≡◌, length};
ghost use Rattle.spec_protocol.specs.Parameters.{parameters};
ghost use Rattle.spec_protocol.specs.Prover.{zeroed};
ghost use Rattle.spec_protocol.specs.Many.{many_need};
ghost use Rattle.verify_many_admission.specs.Admitted.{ManyGiven};
ghost use Rattle.verify_many.specs.Windows.{verdicts_of};
ghost use Rattle.verify_many.specs.Answers.{ManyCall};

use crate::answers;
use crate::answers::LabradorVerdicts;
use crate::verdicts::all::verdicts;
use api_answers::verdicts::LabradorVerdict;
use relation_env_params::env_params::EnvironmentParameters;
use verify_many_admission::whole::ManyRefusal;
use verify_many_admission::{parts, whole};
use verify_many_rows::rows::row_products;

// The work of a call that is not refused as a whole: 9 and 10 of each transcript, the rows of A, B, C and D, each once for all that pass these, and the
// verdicts, each after 7 and 8. A transcript that passes 7 to 10 takes part in the rows; one that is refused by 7 or 8 alone does too, and nothing is taken of it.
fn work(
    job: &[u32],
    randomness: &[u32],
    transcripts: &[u32],
    params: EnvironmentParameters,
    count: usize,
    scratch: &mut [u32],
) -> [LabradorVerdict; 8]
    requires { ManyGiven job.now count (length scratch.old) params }
    ensures value { result ≡ verdicts_of job.now count randomness.now transcripts.now }
    ensures scratch_after { scratch.new ≡ zeroed (many_need (parameters job.now) count) scratch.old }
{
    let found = parts::check_transcripts(transcripts, params, count);
    let passes = parts::passing_parts(found);
    row_products(job, params, count, passes, transcripts, scratch);
    let out = verdicts(job, randomness, transcripts, params, count, found, scratch);
    let need = whole::need(params, count);
    ring_words::clear(scratch, need);
    out
}

// "One call takes them with their randomness and gives eight verdicts, those past the number marked unused."
pub fn verify_many(
    job: &[u32],
    count: u32,
    randomness: &[u32],
    transcripts: &[u32],
    scratch: &mut [u32],
) -> LabradorVerdicts
    ensures { ManyCall job.now count randomness.now transcripts.now scratch.old scratch.new result }
{
    match whole::admit(job, count, scratch.len()) {
        Ok(params) => LabradorVerdicts {
            number: 0,
            place: 0,
            verdicts: work(
                job,
                randomness,
                transcripts,
                params,
                count as usize,
                scratch,
            ),
        },
        Err(ManyRefusal::Count) => answers::refused(35, 0),
        Err(ManyRefusal::Refused(refusal)) => LabradorVerdicts::from(refusal),
    }
}
