// Each recorded call on whole slices, made again: its answer and the words that it leaves are compared with the recorded ones.
use api_answers::verdicts::{LabradorAnswer, LabradorVerdict};
use labrador::{calls, needs};
use replay_records::sections::Call;
use replay_records::slices::{Run, Slice};
use replay_records::{marks, sections, words};

// What a call leaves: both buffers as they were, zeros in the output, or words of the transcript in the output.
#[derive(Clone, Copy)]
enum Left {
    Untouched,
    Zeros,
    OfTranscript,
}

// What the recorded call leaves; none where the record says nothing known.
fn left_of(body: &[u8]) -> Option<Left> {
    match words::at(body, 15) {
        0 => Some(Left::Untouched),
        1 => Some(Left::Zeros),
        2 => Some(Left::OfTranscript),
        _ => None,
    }
}

// A prover's answer, in the form of the verifier's.
fn verdict_of(answer: LabradorAnswer) -> LabradorVerdict {
    LabradorVerdict {
        number: answer.number,
        index: 0,
        first_hi: 0,
        first_lo: 0,
        second_hi: 0,
        second_lo: 0,
        place: answer.place,
        cells_left: 0,
    }
}

// The recorded call with buffers of the recorded lengths.
fn answer(body: &[u8], run: &Run, scratch: &mut [u32], output: &mut [u32]) -> LabradorVerdict {
    let job = run.slice(Slice::Job);
    let randomness = run.slice(Slice::Randomness);
    let witness = run.slice(Slice::Witness);
    let made = match sections::call_of(body) {
        Call::Prove => calls::labrador_prove(job, randomness, witness, scratch, output),
        Call::Round1 => calls::labrador_round_1(job, randomness, witness, scratch, output),
        Call::Round2 => calls::labrador_round_2(job, randomness, witness, scratch, output),
        Call::Round3 => calls::labrador_round_3(job, randomness, witness, scratch, output),
        Call::Round4 => calls::labrador_round_4(job, randomness, witness, scratch, output),
        Call::Round5 => calls::labrador_round_5(job, randomness, witness, scratch, output),
        Call::Verify => {
            return calls::labrador_verify(job, randomness, run.slice(Slice::Transcript), scratch);
        }
    };
    verdict_of(made)
}

// Whether an answer is the recorded one.
fn same_answer(body: &[u8], found: LabradorVerdict) -> bool {
    found.number == number(body)
        && found.index == words::at(body, 4)
        && found.place == words::at_64(body, 5)
        && found.first_lo == words::at_64(body, 7)
        && found.first_hi == words::at_64(body, 9)
        && found.second_lo == words::at_64(body, 11)
        && found.second_hi == words::at_64(body, 13)
        && found.cells_left == words::at_64(body, 18)
}

// Makes the recorded call with the first words of two buffers, and compares its answer; false where a buffer is too short.
fn same_call(body: &[u8], run: &Run, scratch: &mut [u32], output: &mut [u32]) -> bool {
    let Some(scratch) = scratch.get_mut(..words::at(body, 1) as usize) else {
        return false;
    };
    let Some(output) = output.get_mut(..words::at(body, 2) as usize) else {
        return false;
    };
    same_answer(body, answer(body, run, scratch, output))
}

// Whether a worked call leaves the scratch zero to the length needed, and was handed whole sections.
fn same_worked(body: &[u8], run: &Run, scratch: &[u32]) -> bool {
    let need = needs::labrador_scratch_need(run.slice(Slice::Job));
    need.number == 0 && marks::zero_to(scratch, need.words as usize) && sections::whole(body, run)
}

// Whether the two buffers, which were all marks, hold what is recorded.
fn same_left(body: &[u8], run: &Run, scratch: &[u32], output: &[u32]) -> bool {
    match left_of(body) {
        Some(Left::Untouched) => marks::zero_to(scratch, 0) && marks::zero_to(output, 0),
        Some(Left::Zeros) => {
            same_worked(body, run, scratch) && marks::zero_to(output, words::at(body, 17) as usize)
        }
        Some(Left::OfTranscript) => {
            same_worked(body, run, scratch) && sections::same_made(body, run, output)
        }
        None => false,
    }
}

// The recorded number.
pub fn number(body: &[u8]) -> u32 {
    words::at(body, 3)
}

// Whether the recorded call is the verifier's.
pub fn verifies(body: &[u8]) -> bool {
    sections::call_of(body) == Call::Verify
}

// Whether the recorded call gives the recorded answer and leaves the recorded words.
pub fn same(body: &[u8], run: &Run) -> bool {
    let mut scratch = [marks::MARK; 16384];
    let mut output = [marks::MARK; 8192];
    same_call(body, run, &mut scratch, &mut output) && same_left(body, run, &scratch, &output)
}
