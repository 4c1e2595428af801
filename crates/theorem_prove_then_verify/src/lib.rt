// The prover's whole call, then the verifier on the transcript that it makes: demand 3 over the two calls.
#![tactic(auto)]

ghost use Rattle.std.specs.Prelude.{◌≡◌, ◌≤◌, length, take};
ghost use Rattle.spec_leaves.specs.Answer.{of_verdict};
ghost use Rattle.spec_protocol.specs.Prover.{whole, prove_output, prove_scratch};
ghost use Rattle.spec_protocol.specs.Verifier.{verify as verdict, verify_scratch};
ghost use Rattle.theorem_prove_then_verify.specs.Both.{both};

use admission_slices::calls::Call;
use admission_slices::transcript_length;
use prover::prove;
use spec_leaves::answers::Verdict;
use verifier::verify;

// The verdict on the first words of a buffer.
fn verify_first(
    job: &[u32],
    randomness: &[u32],
    words: &[u32],
    count: usize,
    scratch: &mut [u32],
) -> Verdict
    requires { count ≤ length words.now }
    ensures result_value { of_verdict result ≡ verdict job.now randomness.now (take count words.now) (length scratch.old) }
    ensures scratch_after { scratch.new ≡ verify_scratch job.now randomness.now (take count words.now) scratch.old }
{
    verify::verify(job, randomness, &words[..count], scratch)
}

// The prover's refusal, or the verdict of the four conditions on job, randomness and witness.
pub fn prove_then_verify(
    job: &[u32],
    randomness: &[u32],
    witness: &[u32],
    scratch: &mut [u32],
    output: &mut [u32],
) -> Verdict
    ensures result_value { of_verdict result ≡ both job.now randomness.now witness.now (length scratch.old) (length output.old) }
    ensures output_after { output.new ≡ prove_output whole job.now randomness.now witness.now scratch.old output.old }
    ensures scratch_after { scratch.new ≡ prove_scratch whole job.now randomness.now witness.now scratch.old output.old }
{
    match prove::prove(Call::Whole, job, randomness, witness, scratch, output) {
        Err(refusal) => Verdict::Refused(refusal),
        Ok(()) => {
            let count = transcript_length::transcript_length(job);
            verify_first(job, randomness, output, count, scratch)
        }
    }
}
