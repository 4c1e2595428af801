// The randomness: 7 and 8.
ghost use Rattle.std.specs.Prelude.{◌≡◌};
ghost use Rattle.spec_leaves.specs.Answer.{of_result};
ghost use Rattle.spec_protocol.specs.Layout.{randomness_refusal};
ghost use Rattle.relation_env_params.specs.Parameters.{parameters_of};
ghost use Rattle.layout_sizes.specs.Sizes.{Sized};
ghost use Rattle.admission_slices.specs.Admission.{call_of};

use crate::calls::Call;
use crate::slices::Slice;
use crate::{calls, slices};
use relation_env_params::env_params::EnvironmentParameters;
use spec_leaves::answers::Refusal;

// "7 layout; 8 a word out of range", of the sections that a call is handed.
pub fn check(words: &[u32], params: EnvironmentParameters, call: Call) -> Result<(), Refusal>
    requires { Sized (parameters_of params) }
    ensures { of_result result ≡ randomness_refusal (parameters_of params) (call_of call).handed words.now }
{
    let sections = layout_sizes::slices::randomness_sections(params);
    slices::check(
        Slice::Randomness,
        words,
        0,
        &sections[..calls::handed(call)],
    )
}
