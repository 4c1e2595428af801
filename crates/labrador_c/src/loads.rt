// The exported calls that make a test load (document 02, Item 1).
ghost use Rattle.std.specs.Prelude.{◌≡◌};
ghost use Rattle.load_needs.specs.Given.{given};
ghost use Rattle.load.specs.Call.{LoadCall};
ghost use Rattle.labrador.specs.LoadNeeds.{labrador_load_need};

use api_answers::verdicts::LabradorAnswer;
use labrador::loads::LabradorLoadNeed;
use load_needs::LabradorParameters;

// Job, witness and randomness of twelve parameters and a seed, as they are drawn.
#[unsafe(no_mangle)]
pub extern "C" fn labrador_load(
    parameters: LabradorParameters,
    seed: u32,
    job: &mut [u32],
    witness: &mut [u32],
    randomness: &mut [u32],
) -> LabradorAnswer
    ensures { LoadCall (given parameters) seed job.old witness.old randomness.old job.new witness.new randomness.new result }
{
    labrador::loads::labrador_load(parameters, seed, job, witness, randomness)
}

// The three lengths.
#[unsafe(no_mangle)]
pub extern "C" fn labrador_load_needs(parameters: LabradorParameters) -> LabradorLoadNeed
    ensures { result ≡ labrador_load_need (given parameters) }
{
    labrador::loads::labrador_load_needs(parameters)
}
