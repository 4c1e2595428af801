// The lent output: 2.
ghost use Rattle.std.specs.Prelude.{◌≡◌};
ghost use Rattle.spec_leaves.specs.Answer.{of_result};
ghost use Rattle.spec_protocol.specs.Layout.{output_refusal};
ghost use Rattle.spec_protocol.specs.Prover.{made_sections};
ghost use Rattle.relation_env_params.specs.Parameters.{parameters_of};
ghost use Rattle.layout_sizes.specs.Sizes.{Sized};
ghost use Rattle.admission_slices.specs.Admission.{call_of};
ghost use Rattle.admission_buffers.specs.Lengths.{short_output};

use admission_slices::calls;
use admission_slices::calls::Call;
use relation_env_params::env_params::EnvironmentParameters;
use spec_leaves::answers::Refusal;

// "Place is the length needed."
#[tactic(auto, using(admission_slices::proofs::Found::too_short, admission_slices::proofs::Found::long_enough), unfolding(crate::specs::Lengths::short_output))]
pub fn check_length(lent: usize, need: usize) -> Result<(), Refusal>
    ensures { of_result result ≡ short_output need lent }
{
    if lent < need {
        Err(Refusal::OutputTooShort(need))
    } else {
        Ok(())
    }
}

// The output of a call, long enough for the sections that the call makes.
pub fn check(lent: usize, params: EnvironmentParameters, call: Call) -> Result<(), Refusal>
    requires { Sized (parameters_of params) }
    ensures { of_result result ≡ output_refusal (made_sections (call_of call) (parameters_of params)) lent }
{
    let made = calls::makes(call);
    check_length(
        lent,
        layout_sizes::buffers::output_length(params, made.from, made.makes),
    )
}
