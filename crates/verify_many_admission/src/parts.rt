// The refusals of each transcript by its own words.
ghost use Rattle.std.specs.Prelude.{◌≡◌, ◌≤◌, is_ok};
ghost use Rattle.math.specs.lists.Table.{table};
ghost use Rattle.relation_env_params.specs.Parameters.{parameters_of};
ghost use Rattle.layout_sizes.specs.Sizes.{Sized};
ghost use Rattle.verify_many_admission.specs.Admitted.{TranscriptsFound, found_of};

use crate::bounds::check_transcript;
use relation_env_params::env_params::EnvironmentParameters;
use spec_leaves::answers::Refusal;

// 9 and 10 of each transcript: "A transcript that is refused doesn't alter the others".
pub fn check_transcripts(
    transcripts: &[u32],
    params: EnvironmentParameters,
    count: usize,
) -> [Result<(), Refusal>; 8]
    requires { Sized (parameters_of params) × (count ≤ 8) }
    ensures { TranscriptsFound (parameters_of params) count transcripts.now result }
{
    let mut found = [Ok(()); 8];
    for m in 0..count {
        found[m] = check_transcript(transcripts, params, count, m);
    }
    found
}

// Which transcripts pass 9 and 10.
pub fn passing_parts(found: [Result<(), Refusal>; 8]) -> [bool; 8]
    ensures { result ≡ table 8 (λ m. is_ok (found_of found m)) }
{
    let mut out = [false; 8];
    for m in 0..8 {
        out[m] = found[m].is_ok();
    }
    out
}
