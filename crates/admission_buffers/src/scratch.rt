// The lent scratch: 1.
ghost use Rattle.std.specs.Prelude.{◌≡◌};
ghost use Rattle.spec_leaves.specs.Answer.{of_result};
ghost use Rattle.spec_protocol.specs.Layout.{scratch_refusal};
ghost use Rattle.relation_env_params.specs.Parameters.{parameters_of};
ghost use Rattle.layout_sizes.specs.Sizes.{Sized};

use relation_env_params::env_params::EnvironmentParameters;
use spec_leaves::answers::Refusal;

// "Place is the length needed."
#[tactic(auto, using(admission_slices::proofs::Found::too_short, admission_slices::proofs::Found::long_enough))]
pub fn check(lent: usize, params: EnvironmentParameters) -> Result<(), Refusal>
    requires { Sized (parameters_of params) }
    ensures { of_result result ≡ scratch_refusal (parameters_of params) lent }
{
    let need = layout_sizes::buffers::scratch_length(params);
    if lent < need {
        Err(Refusal::ScratchTooShort(need))
    } else {
        Ok(())
    }
}
