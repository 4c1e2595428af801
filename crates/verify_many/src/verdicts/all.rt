// The verdicts on all transcripts.
ghost use Rattle.std.specs.Prelude.{◌≡◌, length, replicate};
ghost use Rattle.spec_protocol.specs.Parameters.{parameters};
ghost use Rattle.spec_protocol.specs.Unchanged.{Unchanged};
ghost use Rattle.spec_protocol.specs.Many.{many_need};
ghost use Rattle.api_answers.specs.Calls.{failed_check};
ghost use Rattle.verify_many_admission.specs.Admitted.{ManyGiven, TranscriptsFound};
ghost use Rattle.verify_many.specs.Windows.{RowsReady, verdicts_of};

use crate::verdicts::part;
use api_answers::verdicts::LabradorVerdict;
use relation_env_params::env_params::EnvironmentParameters;
use spec_leaves::answers::Refusal;
use verify_many_admission::bounds::check_part;

// Eight times a number and zeros.
pub fn eight(number: u32) -> [LabradorVerdict; 8]
    ensures { result ≡ replicate 8 (failed_check number 0 0 0) }
{
    [LabradorVerdict {
        number,
        index: 0,
        first_hi: 0,
        first_lo: 0,
        second_hi: 0,
        second_lo: 0,
        place: 0,
        cells_left: 0,
    }; 8]
}

// "gives eight verdicts, those past the number marked unused". A transcript's randomness is tested right before it is worked on, while it is at hand.
pub fn verdicts(
    job: &[u32],
    randomness: &[u32],
    transcripts: &[u32],
    params: EnvironmentParameters,
    count: usize,
    found: [Result<(), Refusal>; 8],
    scratch: &mut [u32],
) -> [LabradorVerdict; 8]
    requires many_given { ManyGiven job.now count (length scratch.old) params × TranscriptsFound (parameters job.now) count transcripts.now found }
    requires rows_ready { RowsReady job.now count randomness.now transcripts.now scratch.old }
    ensures value { result ≡ verdicts_of job.now count randomness.now transcripts.now }
    ensures unchanged { Unchanged (many_need (parameters job.now) count) scratch.old scratch.new }
{
    let mut out = eight(4294967295);
    for m in 0..count {
        let one = check_part(randomness, params, count, m, found[m]);
        let v = part::verdict(job, randomness, transcripts, params, count, m, one, scratch);
        out[m] = v;
    }
    out
}
