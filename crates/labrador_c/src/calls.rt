// The exported calls on whole slices: the prover, its five rounds and the verifier.
ghost use Rattle.spec_protocol.specs.Prover.{whole, round₁, round₂, round₃, round₄, round₅};
ghost use Rattle.api_answers.specs.Whole.{ProveCall, VerifyCall};

use api_answers::verdicts::{LabradorAnswer, LabradorVerdict};

// The whole transcript.
#[unsafe(no_mangle)]
pub extern "C" fn labrador_prove(
    job: &[u32],
    randomness: &[u32],
    witness: &[u32],
    scratch: &mut [u32],
    output: &mut [u32],
) -> LabradorAnswer
    ensures { ProveCall whole job.now randomness.now witness.now scratch.old output.old scratch.new output.new result }
{
    labrador::calls::labrador_prove(job, randomness, witness, scratch, output)
}

// Round 1: u1. The randomness is empty.
#[unsafe(no_mangle)]
pub extern "C" fn labrador_round_1(
    job: &[u32],
    randomness: &[u32],
    witness: &[u32],
    scratch: &mut [u32],
    output: &mut [u32],
) -> LabradorAnswer
    ensures { ProveCall round₁ job.now randomness.now witness.now scratch.old output.old scratch.new output.new result }
{
    labrador::calls::labrador_round_1(job, randomness, witness, scratch, output)
}

// Round 2: p. The randomness ends after its first section.
#[unsafe(no_mangle)]
pub extern "C" fn labrador_round_2(
    job: &[u32],
    randomness: &[u32],
    witness: &[u32],
    scratch: &mut [u32],
    output: &mut [u32],
) -> LabradorAnswer
    ensures { ProveCall round₂ job.now randomness.now witness.now scratch.old output.old scratch.new output.new result }
{
    labrador::calls::labrador_round_2(job, randomness, witness, scratch, output)
}

// Round 3: b''. The randomness ends after its first 3 sections.
#[unsafe(no_mangle)]
pub extern "C" fn labrador_round_3(
    job: &[u32],
    randomness: &[u32],
    witness: &[u32],
    scratch: &mut [u32],
    output: &mut [u32],
) -> LabradorAnswer
    ensures { ProveCall round₃ job.now randomness.now witness.now scratch.old output.old scratch.new output.new result }
{
    labrador::calls::labrador_round_3(job, randomness, witness, scratch, output)
}

// Round 4: u2. The randomness ends after its first 5 sections.
#[unsafe(no_mangle)]
pub extern "C" fn labrador_round_4(
    job: &[u32],
    randomness: &[u32],
    witness: &[u32],
    scratch: &mut [u32],
    output: &mut [u32],
) -> LabradorAnswer
    ensures { ProveCall round₄ job.now randomness.now witness.now scratch.old output.old scratch.new output.new result }
{
    labrador::calls::labrador_round_4(job, randomness, witness, scratch, output)
}

// Round 5: z, t, g, h.
#[unsafe(no_mangle)]
pub extern "C" fn labrador_round_5(
    job: &[u32],
    randomness: &[u32],
    witness: &[u32],
    scratch: &mut [u32],
    output: &mut [u32],
) -> LabradorAnswer
    ensures { ProveCall round₅ job.now randomness.now witness.now scratch.old output.old scratch.new output.new result }
{
    labrador::calls::labrador_round_5(job, randomness, witness, scratch, output)
}

// The verdict on a transcript.
#[unsafe(no_mangle)]
pub extern "C" fn labrador_verify(
    job: &[u32],
    randomness: &[u32],
    transcript: &[u32],
    scratch: &mut [u32],
) -> LabradorVerdict
    ensures { VerifyCall job.now randomness.now transcript.now scratch.old scratch.new result }
{
    labrador::calls::labrador_verify(job, randomness, transcript, scratch)
}
