// The four slices of the recorded calls: job, randomness, witness and transcript.
ghost use Rattle.std.specs.Prelude.{◌+◌, ◌≤◌};

use crate::words;

#[derive(Clone, Copy)]
pub enum Slice {
    Job,
    Randomness,
    Witness,
    Transcript,
}

impl From<u32> for Slice {
    fn from(number: u32) -> Slice {
        match number {
            0 => Slice::Job,
            1 => Slice::Randomness,
            2 => Slice::Witness,
            _ => Slice::Transcript,
        }
    }
}

impl Slice {
    // Where the slice starts in the run.
    fn start(self) -> usize
        ensures { result ≤ 82432 }
    {
        match self {
            Slice::Job => 0,
            Slice::Randomness => 16384,
            Slice::Witness => 81920,
            Slice::Transcript => 82432,
        }
    }
}

// How many slices there are.
const SLICES: usize = 4;

// The slices' lengths, and their words one slice after the other. Words past a slice's length stay.
#[derive(Clone, Copy)]
pub struct Run {
    lengths: [u32; SLICES],
    words: [u32; 90624],
}

// The words of a slice from a place on; none where it has too few.
pub fn part(words: &[u32], from: usize, length: usize) -> &[u32] {
    match words.get(from..) {
        Some(rest) if length <= rest.len() => &rest[..length],
        _ => &words[..0],
    }
}

impl Run {
    pub fn new() -> Run {
        Run {
            lengths: [0; SLICES],
            words: [0; 90624],
        }
    }

    // A slice.
    pub fn slice(&self, which: Slice) -> &[u32] {
        let length = match which {
            Slice::Job => self.lengths[0],
            Slice::Randomness => self.lengths[1],
            Slice::Witness => self.lengths[2],
            Slice::Transcript => self.lengths[3],
        };
        part(&self.words, which.start(), length as usize)
    }

    // The words of the transcript and those past its length.
    pub fn transcript(&self) -> &[u32] {
        part(&self.words, Slice::Transcript.start(), 8192)
    }

    // Stores a word, where there is room.
    fn store(&mut self, at: usize, word: u32) {
        if let Some(place) = self.words.get_mut(at) {
            *place = word;
        }
    }

    // Puts the words of a record's body, from its third on, into a slice; the first two tell the slice and the first word's index.
    pub fn put(&mut self, body: &[u8]) {
        let from = Slice::from(words::at(body, 0)).start() + words::at(body, 1) as usize;
        for k in 2..body.len() / 4 {
            self.store(from + (k - 2), words::at(body, k));
        }
    }

    // Sets the length of a slice.
    pub fn resize(&mut self, body: &[u8]) {
        if let Some(length) = self.lengths.get_mut(words::at(body, 0) as usize) {
            *length = words::at(body, 1);
        }
    }
}
