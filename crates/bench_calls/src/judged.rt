// The tests before the work of the prover's whole call, as a call of their own.
ghost use Rattle.std.specs.Prelude.{◌≡◌};
ghost use Rattle.spec_leaves.specs.Answer.{number, place};
ghost use Rattle.spec_protocol.specs.Prover.{prove_refusal, whole};

use admission_order::prover;
use admission_slices::calls::Call;
use api_answers::numbers::Numbered;

// A refusal's number, 0 where nothing is refused, and its place.
#[repr(C)]
#[derive(Clone, Copy)]
pub struct Judged {
    pub number: u32,
    pub place: usize,
}

pub fn slice_judged(
    job: &[u32],
    randomness: &[u32],
    witness: &[u32],
    scratch: usize,
    output: usize,
) -> Judged
    ensures number_value { result.number ≡ number (prove_refusal whole job.now randomness.now witness.now scratch output) }
    ensures place_value { result.place ≡ place (prove_refusal whole job.now randomness.now witness.now scratch output) }
{
    match prover::admit(Call::Whole, job, randomness, witness, scratch, output) {
        Ok(_) => Judged {
            number: 0,
            place: 0,
        },
        Err(refusal) => {
            let Numbered { number, place } = Numbered::from(refusal);
            Judged { number, place }
        }
    }
}
