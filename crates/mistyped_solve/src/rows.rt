// The number of smallest centred size that gives every row of check 22 what it lacks (document 02, Item 8).
ghost use Rattle.std.specs.Prelude.{ℕ, ◌+◌, ◌*◌, ◌<◌, ◌≤◌, length, get_or};
ghost use Rattle.spec_leaves.specs.Zq.{Canonical};
ghost use Rattle.mistyped_solve.specs.Congruence.{Found};
ghost use Rattle.mistyped_solve.specs.Rows.{Supplies};

use crate::congruence;
use crate::congruence::Congruence;
use ring_zq::zq::Zq;

// Of an index whose weight in row k stands at `at` and k times `width`. All rows count, those that lack nothing too.
pub fn smallest_for(
    randomness: &[u32],
    at: usize,
    width: usize,
    lacking: [u32; 32],
    rows: usize,
) -> Option<u32>
    requires rows_bound { (rows ≤ 32) × ((k : ℕ) → k < rows → at + k * width < length randomness.now) }
    requires by_index { (k : ℕ) → k < rows → Canonical (get_or lacking k 0) }
    ensures { Found (Supplies randomness.now at width lacking rows) result }
{
    let mut taken = Congruence {
        factor: Zq::Q,
        value: 0,
    };
    for k in 0..rows {
        let row = Congruence {
            factor: randomness[at + k * width],
            value: lacking[k],
        };
        taken = congruence::combine(taken, row)?;
    }
    congruence::smallest(taken)
}
