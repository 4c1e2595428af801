// Transcripts that lie end to end, and their randomness (document 02, Item 11): each part, and what it is refused by itself.
ghost use Rattle.std.specs.Prelude.{◌≡◌, ◌≤◌, ◌<◌, ◌^◌};
ghost use Rattle.spec_leaves.specs.Answer.{of_result, ◌then◌};
ghost use Rattle.spec_protocol.specs.Layout.{span, randomness_sections, transcript_sections, randomness_refusal, transcript_refusal};
ghost use Rattle.spec_protocol.specs.Many.{randomness_part, transcript_part};
ghost use Rattle.relation_env_params.specs.Parameters.{parameters_of};
ghost use Rattle.layout_sizes.specs.Sizes.{Sized};
ghost use Rattle.verify_many_admission.specs.Bounds.{bounded};

use admission_slices::calls::Call;
use admission_slices::{randomness, transcript};
use layout_sections::sections;
use layout_sizes::slices;
use relation_env_params::env_params::EnvironmentParameters;
use spec_leaves::answers::Refusal;

// A part of a slice, up to but not including `to`.
#[derive(Clone, Copy)]
pub struct Bounds {
    pub from: usize,
    pub to: usize,
}

// Part m of `count` in a slice of `handed` words: "a slice that ends early cuts short or empties those at its end, surplus words belong to the last".
pub fn bounds_of(handed: usize, len: usize, count: usize, m: usize) -> Bounds
    requires { (m < count) × (count ≤ 8) × (len < 2 ^ 32) }
    ensures { result ≡ bounded handed len count m }
{
    let start = m * len;
    let to = if m + 1 < count {
        (start + len).min(handed)
    } else {
        handed
    };
    Bounds {
        from: start.min(handed),
        to,
    }
}

// The bounds of randomness m in a slice of `handed` words.
pub fn randomness_bounds(
    handed: usize,
    params: EnvironmentParameters,
    count: usize,
    m: usize,
) -> Bounds
    requires { (m < count) × (count ≤ 8) × Sized (parameters_of params) }
    ensures { result ≡ bounded handed (span (randomness_sections (parameters_of params))) count m }
{
    let len = sections::span(&slices::randomness_sections(params));
    bounds_of(handed, len, count, m)
}

// The bounds of transcript m in a slice of `handed` words.
pub fn transcript_bounds(
    handed: usize,
    params: EnvironmentParameters,
    count: usize,
    m: usize,
) -> Bounds
    requires { (m < count) × (count ≤ 8) × Sized (parameters_of params) }
    ensures { result ≡ bounded handed (span (transcript_sections (parameters_of params))) count m }
{
    let len = sections::span(&slices::transcript_sections(params));
    bounds_of(handed, len, count, m)
}

// 7 and 8 of randomness m.
fn check_randomness(
    words: &[u32],
    params: EnvironmentParameters,
    count: usize,
    m: usize,
) -> Result<(), Refusal>
    requires { (m < count) × (count ≤ 8) × Sized (parameters_of params) }
    ensures { of_result result ≡ randomness_refusal (parameters_of params) 7 (randomness_part (parameters_of params) count words.now m) }
{
    let Bounds { from, to } = randomness_bounds(words.len(), params, count, m);
    randomness::check(&words[from..to], params, Call::Whole)
}

// 9 and 10 of transcript m: "places count from a transcript's own start".
pub fn check_transcript(
    words: &[u32],
    params: EnvironmentParameters,
    count: usize,
    m: usize,
) -> Result<(), Refusal>
    requires { (m < count) × (count ≤ 8) × Sized (parameters_of params) }
    ensures { of_result result ≡ transcript_refusal (parameters_of params) (transcript_part (parameters_of params) count words.now m) }
{
    let Bounds { from, to } = transcript_bounds(words.len(), params, count, m);
    transcript::check(&words[from..to], params)
}

// 7 and 8 of randomness m, then what is found of transcript m.
pub fn check_part(
    randomness: &[u32],
    params: EnvironmentParameters,
    count: usize,
    m: usize,
    sent: Result<(), Refusal>,
) -> Result<(), Refusal>
    requires { (m < count) × (count ≤ 8) × Sized (parameters_of params) }
    ensures { of_result result ≡ randomness_refusal (parameters_of params) 7 (randomness_part (parameters_of params) count randomness.now m) then of_result sent }
{
    check_randomness(randomness, params, count, m)?;
    sent
}
