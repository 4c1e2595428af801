// The exported call that lists the constants which may be mistyped (document 02, Item 8).
ghost use Rattle.mistyped.specs.Told.{MistypedCall};

use mistyped::answers::MistypedAnswer;
use mistyped::call;

// After a failed check 22, each index of b0 at which adding one number mends it, with the number of smallest centred size.
pub fn labrador_mistyped(
    job: &[u32],
    randomness: &[u32],
    transcript: &[u32],
    scratch: &mut [u32],
    list: &mut [u32],
) -> MistypedAnswer
    ensures { MistypedCall job.now randomness.now transcript.now scratch.old list.old scratch.new list.new result }
{
    call::mistyped(job, randomness, transcript, scratch, list)
}
