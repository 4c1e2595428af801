// p, the projection of the witness, and the term of one projection word. A slice is passed whole, with the place of what is read or written.
ghost use Rattle.std.specs.Prelude.{◌≡◌, ◌+◌, ◌≤◌, length};
ghost use Rattle.math.specs.lists.Part.{splice};
ghost use Rattle.core_jl.specs.Rows.{term, flipped, is_negative};
ghost use Rattle.core_jl.specs.Run.{run, Within};

use crate::rows;
use ring_zq::zq::lack;
use spec_leaves::modulus;
use transcript_words::projection::by_entry;

// A word whose bits are all 1.
const ALL_BITS: u32 = 4294967295;

// The word, the word with each bit changed, or 0, as the projection word's entry is 1, −1 or 0: by two masks, which is less work than a choice of three words.
pub fn flipped(code: u32, word: u32) -> u32
    ensures { result ≡ flipped code word }
{
    let changed = by_entry(code, ALL_BITS, 0, 0);
    let kept = by_entry(code, ALL_BITS, ALL_BITS, 0);
    (word ^ changed) & kept
}

// 1 where the projection word's entry is −1.
pub fn is_negative(code: u32) -> u32
    ensures { (result ≡ is_negative code) × (result ≤ 1) }
{
    by_entry(code, 1, 0, 0)
}

// The word, its negative or 0, as the projection word's entry is 1, −1 or 0.
pub fn term(code: u32, word: u32) -> u32
    ensures { result ≡ term code word }
{
    if modulus::LACK == 1 {
        return flipped(code, word);
    }
    by_entry(code, lack(word), word, 0)
}

// The projection of the vectors from `first` up to `end`, 256 words stored from `out_at` on. The projection words start at `pi_at` and s_1 at `s_at`.
pub fn project_run(
    randomness: &[u32],
    pi_at: usize,
    witness: &[u32],
    s_at: usize,
    n: usize,
    first: usize,
    end: usize,
    out: &mut [u32],
    out_at: usize,
)
    requires { Within randomness.now pi_at witness.now s_at n end × (out_at + 256 ≤ length out.old) }
    ensures { out.new ≡ splice out.old out_at (run randomness.now pi_at witness.now s_at n first end) }
{
    let mut sums = [0u64; 256];
    rows::sum_run(randomness, pi_at, witness, s_at, n, first, end, &mut sums);
    rows::store_reduced(&sums, out, out_at);
}
