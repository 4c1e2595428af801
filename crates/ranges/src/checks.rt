// The refusals after the job's: 11, 37 and 36.
ghost use Rattle.std.specs.Prelude.{◌≡◌, ◌≤◌, length};
ghost use Rattle.spec_leaves.specs.Answer.{of_result, ◌then◌};
ghost use Rattle.spec_protocol.specs.Ranges.{length_refusal, beyond_refusal, crossed_refusal};
ghost use Rattle.ranges.specs.Answers.{of_ranges_checked, lists_refusal};

use crate::answers::RangesError;
use ranges_vectors::pairs::{first_beyond, first_crossed};
use spec_leaves::answers::Refusal;

// 11: a list of another length than needed.
fn check_length(need: usize, handed: usize) -> Result<(), Refusal>
    ensures { of_result result ≡ length_refusal need handed }
{
    if handed != need {
        return Err(Refusal::WitnessLayout(handed.min(need)));
    }
    Ok(())
}

// 37 over all pairs, then 36.
fn check_pairs(lows: &[i64], highs: &[i64], count: usize) -> Result<(), RangesError>
    requires { (count ≤ length lows.now) × (count ≤ length highs.now) }
    ensures { of_ranges_checked result ≡ beyond_refusal count lows.now highs.now then crossed_refusal count lows.now highs.now }
{
    if let Some(place) = first_beyond(lows, highs, count) {
        return Err(RangesError::Beyond(place));
    }
    if let Some(place) = first_crossed(lows, highs, count) {
        return Err(RangesError::Crossed(place));
    }
    Ok(())
}

// "a wrong length is an 11, lows before highs"; then the pairs.
pub fn check(lows: &[i64], highs: &[i64], count: usize) -> Result<(), RangesError>
    ensures { of_ranges_checked result ≡ lists_refusal count lows.now highs.now }
{
    check_length(count, lows.len())?;
    check_length(count, highs.len())?;
    check_pairs(lows, highs, count)
}
