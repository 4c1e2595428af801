// The witness: 11 and 12.
ghost use Rattle.std.specs.Prelude.{◌≡◌};
ghost use Rattle.spec_leaves.specs.Answer.{of_result};
ghost use Rattle.spec_protocol.specs.Layout.{witness_refusal};
ghost use Rattle.relation_env_params.specs.Parameters.{parameters_of};
ghost use Rattle.layout_sizes.specs.Sizes.{Sized};

use crate::slices;
use crate::slices::Slice;
use relation_env_params::env_params::EnvironmentParameters;
use spec_leaves::answers::Refusal;

// "11 layout; 12 a word at or above Q"
pub fn check(words: &[u32], params: EnvironmentParameters) -> Result<(), Refusal>
    requires { Sized (parameters_of params) }
    ensures { of_result result ≡ witness_refusal (parameters_of params) words.now }
{
    slices::check(
        Slice::Witness,
        words,
        0,
        &layout_sizes::slices::witness_sections(params),
    )
}
