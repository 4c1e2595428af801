// The slices of the calls on runs, one section each (document 02, Item 10): 7 and 8, 11 and 12, 9 and 10; then the lent buffers, 1 and 2.
ghost use Rattle.std.specs.Prelude.{◌≡◌};
ghost use Rattle.spec_leaves.specs.Answer.{of_result};
ghost use Rattle.relation_env_params.specs.Parameters.{parameters_of};
ghost use Rattle.layout_sizes.specs.Sizes.{Sized};
ghost use Rattle.admission_slices.specs.Admission.{layout_number, word_number};
ghost use Rattle.shed_admission.specs.Found.{one_refusal, lent, given};

use admission_buffers::{output, scratch};
use admission_slices::slices;
use admission_slices::slices::Slice;
use layout_sizes::slices::canonical;
use relation_env_params::env_params::EnvironmentParameters;
use spec_leaves::answers::Refusal;

// A slice of one section of so many canonical words.
pub fn check_section(slice: Slice, words: &[u32], count: usize) -> Result<(), Refusal>
    ensures { of_result result ≡ one_refusal (layout_number slice) (word_number slice) count words.now }
{
    slices::check(slice, words, 0, &[canonical(count)])
}

// "11 and 12 on its vectors, 1, 2": so many words of vectors, and the length that the output needs.
pub fn check_lent(
    params: EnvironmentParameters,
    count: usize,
    vectors: &[u32],
    scratch: usize,
    need: usize,
    output: usize,
) -> Result<(), Refusal>
    requires { Sized (parameters_of params) }
    ensures { of_result result ≡ lent (parameters_of params) count vectors.now scratch need output }
{
    check_section(Slice::Witness, vectors, count)?;
    scratch::check(scratch, params)?;
    output::check_length(output, need)
}

// "7 and 8 on the run's projection words", then the others: the p of a run takes 257 words.
pub fn check_given(
    params: EnvironmentParameters,
    matrices: usize,
    projection: &[u32],
    count: usize,
    vectors: &[u32],
    scratch: usize,
    output: usize,
) -> Result<(), Refusal>
    requires { Sized (parameters_of params) }
    ensures { of_result result ≡ given (parameters_of params) matrices projection.now count vectors.now scratch output }
{
    check_section(Slice::Randomness, projection, matrices)?;
    check_lent(params, count, vectors, scratch, 257, output)
}
