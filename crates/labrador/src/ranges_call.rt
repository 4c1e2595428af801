// The exported call on a witness known within ranges.
ghost use Rattle.ranges.specs.Answers.{RangesCall};

use ranges::answers::RangesAnswer;
use ranges::call;

// Whether each witness vector's norm meets A's bound, and its smallest and largest norm, where each coefficient is known from a low to a high.
pub fn labrador_ranges(job: &[u32], lows: &[i64], highs: &[i64]) -> RangesAnswer
    ensures { RangesCall job.now lows.now highs.now result }
{
    call::ranges(job, lows, highs)
}
