// The exported call on many transcripts (document 02, Item 11).
ghost use Rattle.verify_many.specs.Answers.{ManyCall};

use verify_many::answers::LabradorVerdicts;
use verify_many::call;

// The verdicts on up to eight transcripts, which lie end to end, with their randomness; the job is read once.
pub fn labrador_verify_many(
    job: &[u32],
    count: u32,
    randomness: &[u32],
    transcripts: &[u32],
    scratch: &mut [u32],
) -> LabradorVerdicts
    ensures { ManyCall job.now count randomness.now transcripts.now scratch.old scratch.new result }
{
    call::verify_many(job, count, randomness, transcripts, scratch)
}
