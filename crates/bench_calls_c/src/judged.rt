// The tests before the work of the prover's whole call, as a call of their own.
ghost use Rattle.std.specs.Prelude.{◌≡◌};
ghost use Rattle.spec_leaves.specs.Answer.{number, place};
ghost use Rattle.spec_protocol.specs.Prover.{prove_refusal, whole};

use bench_calls::judged::Judged;

#[unsafe(no_mangle)]
pub extern "C" fn slice_judged(
    job: &[u32],
    randomness: &[u32],
    witness: &[u32],
    scratch: usize,
    output: usize,
) -> Judged
    ensures number_value { result.number ≡ number (prove_refusal whole job.now randomness.now witness.now scratch output) }
    ensures place_value { result.place ≡ place (prove_refusal whole job.now randomness.now witness.now scratch output) }
{
    bench_calls::judged::slice_judged(job, randomness, witness, scratch, output)
}
