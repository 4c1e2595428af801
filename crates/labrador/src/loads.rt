// The exported calls that make a test load (document 02, Item 1).
ghost use Rattle.std.specs.Prelude.{◌≡◌};
ghost use Rattle.load_needs.specs.Given.{given};
ghost use Rattle.load.specs.Call.{LoadCall};
ghost use Rattle.labrador.specs.LoadNeeds.{labrador_load_need};

use api_answers::verdicts::LabradorAnswer;
use load_needs::LabradorParameters;

// The lengths that a load needs, or the refusal of its parameters with zeros.
#[repr(C)]
#[derive(Clone, Copy)]
pub struct LabradorLoadNeed {
    pub number: u32,
    pub place: u64,
    pub job: u64,
    pub witness: u64,
    pub randomness: u64,
}

// Job, witness and randomness of twelve parameters and a seed, as they are drawn.
pub fn labrador_load(
    parameters: LabradorParameters,
    seed: u32,
    job: &mut [u32],
    witness: &mut [u32],
    randomness: &mut [u32],
) -> LabradorAnswer
    ensures { LoadCall (given parameters) seed job.old witness.old randomness.old job.new witness.new randomness.new result }
{
    LabradorAnswer::from(load::load(parameters, seed, job, witness, randomness))
}

// The three lengths.
pub fn labrador_load_needs(parameters: LabradorParameters) -> LabradorLoadNeed
    ensures { result ≡ labrador_load_need (given parameters) }
{
    match load_needs::read(parameters) {
        Ok(params) => {
            let needs = load_needs::lengths(params);
            LabradorLoadNeed {
                number: 0,
                place: 0,
                job: needs.job as u64,
                witness: needs.witness as u64,
                randomness: needs.randomness as u64,
            }
        }
        Err(refusal) => {
            let answer = LabradorAnswer::from(refusal);
            LabradorLoadNeed {
                number: answer.number,
                place: answer.place,
                job: 0,
                witness: 0,
                randomness: 0,
            }
        }
    }
}
