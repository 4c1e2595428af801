// The call for every input.
ghost use Rattle.relation_env_params.specs.Parameters.{parameters_of};
ghost use Rattle.layout_sizes.specs.Sizes.{Sized};
ghost use Rattle.ranges.specs.Answers.{RangesCall, RangesOf};

use crate::answers::RangesAnswer;
use crate::checks;
use admission_slices::job;
use ranges_vectors::vectors::vectors;
use relation_env_params::env_params::EnvironmentParameters;

// With the parameters of a job that is refused nothing.
fn of_parameters(params: EnvironmentParameters, lows: &[i64], highs: &[i64]) -> RangesAnswer
    requires { Sized (parameters_of params) }
    ensures { RangesOf (parameters_of params) lows.now highs.now result }
{
    let count = 64 * params.rank;
    let r = params.multiplicity;
    match checks::check(lows, highs, 64 * (r * params.rank)) {
        Ok(()) => RangesAnswer {
            number: 0,
            place: 0,
            vectors: vectors(lows, highs, count, r, params.bound_a),
        },
        Err(error) => RangesAnswer::from(error),
    }
}

// "For each witness vector a call, handed a job, 64·r·n lows and as many highs without counts, tells whether its norm meets A's bound for every
// choice, for some but not every, or for none, and gives the smallest and largest norm".
pub fn ranges(job: &[u32], lows: &[i64], highs: &[i64]) -> RangesAnswer
    ensures { RangesCall job.now lows.now highs.now result }
{
    match job::check(job) {
        Ok(params) => of_parameters(params, lows, highs),
        Err(refusal) => RangesAnswer::from(refusal),
    }
}
