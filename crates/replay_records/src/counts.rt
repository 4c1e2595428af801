// The counts of a replay.
ghost use Rattle.std.specs.Prelude.{◌<◌};

// How many calls were recorded, and how many of them are the same.
#[derive(Clone, Copy)]
pub struct Count {
    pub all: u64,
    pub same: u64,
}

impl Count {
    const NONE: Count = Count { all: 0, same: 0 };

    // One call more.
    fn add(&mut self, same: bool) {
        self.all = self.all.wrapping_add(1);
        if same {
            self.same = self.same.wrapping_add(1);
        }
    }
}

// The leaf calls by their kinds, the calls on whole slices by their rows, how many records the file had so far, and how often a file's last record counted
// the others right.
#[derive(Clone, Copy)]
pub struct Tally {
    pub leaves: [Count; 32],
    pub calls: [Count; 64],
    pub records: u64,
    pub whole: u64,
}

// The row of the transcripts that are accepted. Row 0 has what the prover makes; each other answer's row is its number.
pub const ACCEPTED: u32 = 63;

// The row of an answer's number; the calls that no row is for are in row 17, whose number no answer has.
pub fn row_of(number: u32, verifies: bool) -> usize
    ensures { result < 64 }
{
    match number {
        0 if verifies => ACCEPTED as usize,
        0..ACCEPTED => number as usize,
        _ => 17,
    }
}

impl Tally {
    pub fn new() -> Tally {
        Tally {
            leaves: [Count::NONE; 32],
            calls: [Count::NONE; 64],
            records: 0,
            whole: 0,
        }
    }

    // Counts a leaf call; those of a kind that no row is for are in row 0, which is not reported.
    pub fn add_leaf(&mut self, kind: u32, same: bool) {
        let row = if kind < 32 { kind as usize } else { 0 };
        self.leaves[row].add(same);
    }

    // Counts a call on whole slices by its answer's number.
    pub fn add_call(&mut self, number: u32, verifies: bool, same: bool) {
        self.calls[row_of(number, verifies)].add(same);
    }

    // Counts a record.
    pub fn add_record(&mut self) {
        self.records = self.records.wrapping_add(1);
    }

    // Ends a file, whose last record says how many there were before it.
    pub fn end(&mut self, said: u64) {
        if said == self.records {
            self.whole = self.whole.wrapping_add(1);
        }
        self.records = 0;
    }
}
