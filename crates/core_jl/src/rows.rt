// Rows of the projection, vector by vector and four rows at a time: sums of words where the projection's entry is 1 and of their negatives where it is −1.
// The words of a vector are read once for four rows, and its rows lie one after the other.
ghost use Rattle.std.specs.Prelude.{◌≡◌, ℕ, ◌+◌, ◌-◌, ◌*◌, ◌/◌, ◌%◌, ◌^◌, ◌≤◌, ◌<◌, length, get_or, replicate};
ghost use Rattle.math.specs.lists.Table.{table};
ghost use Rattle.math.specs.lists.Part.{splice};
ghost use Rattle.spec_leaves.specs.Zq.{Q};
ghost use Rattle.core_jl.specs.Rows.{flipped, is_negative, flip_Q, flipped_row, raised, row_added, SumsRoom};
ghost use Rattle.core_jl.specs.Run.{made_sum, Within};

use crate::projection;
use ring_zq::zq::Zq;
use spec_leaves::modulus;

// Q as a u64.
const MODULUS: u64 = Zq::Q as u64;

// What a word with each bit changed lacks of the word's negative: nothing where Q is 2^32 − 1.
const FLIP: u64 = (MODULUS - (modulus::LACK as u64 - 1)) % MODULUS;

// Sums of the lower and of the upper halves of flipped words, and the number of those whose entry is −1.
#[derive(Clone, Copy)]
pub struct FlippedHalves {
    pub low: u32,
    pub high: u32,
    pub negatives: u32,
}

impl FlippedHalves {
    // One more word.
    fn with(self, code: u32, word: u32) -> FlippedHalves
        requires { (self.low ≤ 4294836225) × (self.high ≤ 4294836225) × (self.negatives ≤ 65535) }
        ensures { (result.low ≡ self.low + flipped code word % 65536) × (result.high ≡ self.high + flipped code word / 65536) × (result.negatives ≡ self.negatives + is_negative code) }
    {
        let t = projection::flipped(code, word);
        let negative = projection::is_negative(code);
        FlippedHalves {
            low: self.low + t % 65536,
            high: self.high + t / 65536,
            negatives: self.negatives + negative,
        }
    }

    // The sum of the words, with what the negatives lack.
    fn sum(self) -> u64
        requires { self.negatives ≤ 65536 }
        ensures { result ≡ self.high * 65536 + self.low + self.negatives * flip_Q }
    {
        u64::from(self.high) * 65536 + u64::from(self.low) + u64::from(self.negatives) * FLIP
    }
}

// The sums of four rows of `count` words, one after the other from `at` on, with the words from `wt` on.
fn four(randomness: &[u32], at: usize, witness: &[u32], wt: usize, count: usize) -> [u64; 4]
    requires { (at + 4 * count ≤ length randomness.now) × (wt + count ≤ length witness.now) × (count ≤ 65536) }
    ensures { result ≡ table 4 (λ t. flipped_row randomness.now (at + t * count) witness.now wt count) }
{
    let second = at + count;
    let third = at + 2 * count;
    let fourth = at + 3 * count;
    let none = FlippedHalves {
        low: 0,
        high: 0,
        negatives: 0,
    };
    let mut a = none;
    let mut b = none;
    let mut c = none;
    let mut d = none;
    for m in 0..count {
        let word = witness[wt + m];
        a = a.with(randomness[at + m], word);
        b = b.with(randomness[second + m], word);
        c = c.with(randomness[third + m], word);
        d = d.with(randomness[fourth + m], word);
    }
    [a.sum(), b.sum(), c.sum(), d.sum()]
}

// The sums of four rows added to four sums from sum j on.
fn raise(sums: &mut [u64], j: usize, rows: [u64; 4])
    requires { (j + 4 ≤ length sums.old) × ((t : ℕ) → t < 4 → raised sums.old j rows t < 2 ^ 64) }
    ensures { sums.new ≡ splice sums.old j (table 4 (raised sums.old j rows)) }
{
    for t in 0..4 {
        sums[j + t] += rows[t];
    }
}

// The rows of one more vector added to the sums of 256 rows. Its rows start at `at` and its `width` words at `wt`.
fn add_vector(
    sums: &mut [u64],
    randomness: &[u32],
    at: usize,
    witness: &[u32],
    wt: usize,
    width: usize,
)
    requires { (at + 256 * width ≤ length randomness.now) × (wt + width ≤ length witness.now) × (width ≤ 65536) × SumsRoom sums.old }
    ensures { sums.new ≡ table 256 (row_added sums.old randomness.now at witness.now wt width) }
{
    for q in 0..64 {
        let rows = four(randomness, at + 4 * q * width, witness, wt, width);
        raise(sums, 4 * q, rows);
    }
}

// The sums of 256 rows of the vectors from `first` up to `end`, in place of zeros. The projection words start at `pi_at` and s_1 at `s_at`.
pub fn sum_run(
    randomness: &[u32],
    pi_at: usize,
    witness: &[u32],
    s_at: usize,
    n: usize,
    first: usize,
    end: usize,
    sums: &mut [u64],
)
    requires { Within randomness.now pi_at witness.now s_at n end × (sums.old ≡ replicate 256 0) }
    ensures { sums.new ≡ table 256 (made_sum randomness.now pi_at witness.now s_at n first (end - first)) }
{
    let width = 64 * n;
    for i in first..end {
        let at = pi_at + i * 256 * width;
        let wt = s_at + i * width;
        add_vector(sums, randomness, at, witness, wt, width);
    }
}

// The 256 sums, each reduced, stored from `out_at` on.
pub fn store_reduced(sums: &[u64], out: &mut [u32], out_at: usize)
    requires { (length sums.now ≡ 256) × (out_at + 256 ≤ length out.old) }
    ensures { out.new ≡ splice out.old out_at (table 256 (λ j. get_or sums.now j 0 % Q)) }
{
    for j in 0..256 {
        out[out_at + j] = (sums[j] % MODULUS) as u32;
    }
}
