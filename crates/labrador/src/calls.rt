// The exported calls on whole slices: the prover, its five rounds and the verifier.
ghost use Rattle.spec_protocol.specs.Prover.{whole, round₁, round₂, round₃, round₄, round₅};
ghost use Rattle.admission_slices.specs.Admission.{call_of};
ghost use Rattle.api_answers.specs.Whole.{ProveCall, VerifyCall};

use admission_slices::calls::Call;
use api_answers::verdicts::{LabradorAnswer, LabradorVerdict};
use prover::prove;
use verifier::verify;

// A call of the prover.
fn prove_call(
    call: Call,
    job: &[u32],
    randomness: &[u32],
    witness: &[u32],
    scratch: &mut [u32],
    output: &mut [u32],
) -> LabradorAnswer
    ensures { ProveCall (call_of call) job.now randomness.now witness.now scratch.old output.old scratch.new output.new result }
{
    LabradorAnswer::from(prove::prove(call, job, randomness, witness, scratch, output))
}

// The whole transcript. Each exported call has a function of its name here, as Rust programs call them.
pub fn labrador_prove(
    job: &[u32],
    randomness: &[u32],
    witness: &[u32],
    scratch: &mut [u32],
    output: &mut [u32],
) -> LabradorAnswer
    ensures { ProveCall whole job.now randomness.now witness.now scratch.old output.old scratch.new output.new result }
{
    prove_call(Call::Whole, job, randomness, witness, scratch, output)
}

// Round 1: u1. The randomness is empty.
pub fn labrador_round_1(
    job: &[u32],
    randomness: &[u32],
    witness: &[u32],
    scratch: &mut [u32],
    output: &mut [u32],
) -> LabradorAnswer
    ensures { ProveCall round₁ job.now randomness.now witness.now scratch.old output.old scratch.new output.new result }
{
    prove_call(Call::Round1, job, randomness, witness, scratch, output)
}

// Round 2: p. The randomness ends after its first section.
pub fn labrador_round_2(
    job: &[u32],
    randomness: &[u32],
    witness: &[u32],
    scratch: &mut [u32],
    output: &mut [u32],
) -> LabradorAnswer
    ensures { ProveCall round₂ job.now randomness.now witness.now scratch.old output.old scratch.new output.new result }
{
    prove_call(Call::Round2, job, randomness, witness, scratch, output)
}

// Round 3: b''. The randomness ends after its first 3 sections.
pub fn labrador_round_3(
    job: &[u32],
    randomness: &[u32],
    witness: &[u32],
    scratch: &mut [u32],
    output: &mut [u32],
) -> LabradorAnswer
    ensures { ProveCall round₃ job.now randomness.now witness.now scratch.old output.old scratch.new output.new result }
{
    prove_call(Call::Round3, job, randomness, witness, scratch, output)
}

// Round 4: u2. The randomness ends after its first 5 sections.
pub fn labrador_round_4(
    job: &[u32],
    randomness: &[u32],
    witness: &[u32],
    scratch: &mut [u32],
    output: &mut [u32],
) -> LabradorAnswer
    ensures { ProveCall round₄ job.now randomness.now witness.now scratch.old output.old scratch.new output.new result }
{
    prove_call(Call::Round4, job, randomness, witness, scratch, output)
}

// Round 5: z, t, g, h.
pub fn labrador_round_5(
    job: &[u32],
    randomness: &[u32],
    witness: &[u32],
    scratch: &mut [u32],
    output: &mut [u32],
) -> LabradorAnswer
    ensures { ProveCall round₅ job.now randomness.now witness.now scratch.old output.old scratch.new output.new result }
{
    prove_call(Call::Round5, job, randomness, witness, scratch, output)
}

// The verdict on a transcript.
pub fn labrador_verify(
    job: &[u32],
    randomness: &[u32],
    transcript: &[u32],
    scratch: &mut [u32],
) -> LabradorVerdict
    ensures { VerifyCall job.now randomness.now transcript.now scratch.old scratch.new result }
{
    LabradorVerdict::from(verify::verify(job, randomness, transcript, scratch))
}
