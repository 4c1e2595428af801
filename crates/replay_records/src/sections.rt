// The sections of the recorded calls' slices, read by the section reader.
use crate::slices::{Run, Slice};
use crate::{marks, slices, words};
use layout_section_reader::Read;

// The calls on whole slices, as records number them.
#[derive(Clone, Copy, PartialEq, Eq)]
pub enum Call {
    Prove,
    Round1,
    Round2,
    Round3,
    Round4,
    Round5,
    Verify,
}

impl From<u32> for Call {
    fn from(number: u32) -> Call {
        match number {
            1 => Call::Round1,
            2 => Call::Round2,
            3 => Call::Round3,
            4 => Call::Round4,
            5 => Call::Round5,
            6 => Call::Verify,
            _ => Call::Prove,
        }
    }
}

impl Call {
    // How many sections of the randomness the call is handed.
    fn handed(self) -> usize {
        match self {
            Call::Round1 => 0,
            Call::Round2 => 1,
            Call::Round3 => 3,
            Call::Round4 => 5,
            Call::Round5 | Call::Prove | Call::Verify => 7,
        }
    }

    // How many sections of the transcript stand before those that the call makes.
    fn before_made(self) -> usize {
        match self {
            Call::Round2 => 1,
            Call::Round3 => 2,
            Call::Round4 => 3,
            Call::Round5 => 4,
            Call::Round1 | Call::Prove | Call::Verify => 0,
        }
    }

    // The same with those that it makes; the verifier makes none.
    fn to_made(self) -> usize {
        match self {
            Call::Round1 => 1,
            Call::Round2 => 2,
            Call::Round3 => 3,
            Call::Round4 => 4,
            Call::Verify => 0,
            Call::Round5 | Call::Prove => 8,
        }
    }
}

// The recorded call.
pub fn call_of(body: &[u8]) -> Call {
    Call::from(words::at(body, 0))
}

// The position behind so many sections; none where there are fewer.
fn behind(words: &[u32], number: usize) -> Option<usize> {
    let mut position = 0;
    for _ in 0..number {
        match layout_section_reader::section_from(words, position) {
            Read::Section(place, count) => position = place + count,
            Read::Short | Read::End => return None,
        }
    }
    Some(position)
}

// Whether words are so many sections and nothing behind them.
fn are(words: &[u32], number: usize) -> bool {
    behind(words, number) == Some(words.len())
}

// Whether the slices of a call that works are whole sections: the job's eleven, those of the randomness, and the transcript's eight or the witness's one.
pub fn whole(body: &[u8], run: &Run) -> bool {
    let call = call_of(body);
    let third = if call == Call::Verify {
        are(run.slice(Slice::Transcript), 8)
    } else {
        are(run.slice(Slice::Witness), 1)
    };
    third && are(run.slice(Slice::Job), 11) && are(run.slice(Slice::Randomness), call.handed())
}

// Whether a part of the transcript stands where it is recorded, and the output starts with it.
fn same_part(body: &[u8], transcript: &[u32], from: usize, to: usize, output: &[u32]) -> bool {
    let length = words::at(body, 17) as usize;
    from == words::at(body, 16) as usize
        && to.checked_sub(from) == Some(length)
        && marks::starts_with(output, slices::part(transcript, from, length), length)
}

// Whether the output is the transcript's sections that the call makes, which stand where it is recorded.
pub fn same_made(body: &[u8], run: &Run, output: &[u32]) -> bool {
    let call = call_of(body);
    let transcript = run.transcript();
    let Some(from) = behind(transcript, call.before_made()) else {
        return false;
    };
    let Some(to) = behind(transcript, call.to_made()) else {
        return false;
    };
    same_part(body, transcript, from, to, output)
}
