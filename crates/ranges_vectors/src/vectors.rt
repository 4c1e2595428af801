// What is answered of each witness vector: whether its norm meets A's bound, and its smallest and largest norm.
ghost use Rattle.std.specs.Prelude.{◌≡◌, ◌+◌, ◌*◌, ◌≤◌, length};
ghost use Rattle.math.specs.lists.Table.{padded};
ghost use Rattle.spec_protocol.specs.Ranges.{unused};
ghost use Rattle.ranges_vectors.specs.Ends.{AllCentred};
ghost use Rattle.ranges_vectors.specs.Vectors.{range_norms, meets_by, worked};

use crate::norms::{Norms, norms_of};

// meets is 0 unused, 1 for every choice, 2 for some but not every, 3 for none. A norm is hi · 2^64 + lo: the C interface has these two words.
#[repr(C)]
#[derive(Clone, Copy)]
pub struct RangeNorms {
    pub meets: u32,
    pub least_hi: u64,
    pub least_lo: u64,
    pub greatest_hi: u64,
    pub greatest_lo: u64,
}

impl RangeNorms {
    // Of a vector that is not there.
    pub const UNUSED: RangeNorms = RangeNorms {
        meets: 0,
        least_hi: 0,
        least_lo: 0,
        greatest_hi: 0,
        greatest_lo: 0,
    };
}

// The number by the smallest and the largest norm.
fn meets_of(norms: Norms, bound: u128) -> u32
    ensures { result ≡ meets_by bound norms.least norms.greatest }
{
    if norms.greatest <= bound {
        return 1;
    }
    if norms.least <= bound {
        return 2;
    }
    3
}

// Of the `count` ranges from `at` on.
fn vector(lows: &[i64], highs: &[i64], at: usize, count: usize, bound: u128) -> RangeNorms
    requires { AllCentred lows.now highs.now × (at + count ≤ length lows.now) × (at + count ≤ length highs.now) }
    ensures { result ≡ range_norms (worked bound lows.now highs.now at count) }
{
    let norms = norms_of(lows, highs, at, count);
    RangeNorms {
        meets: meets_of(norms, bound),
        least_hi: (norms.least >> 64) as u64,
        least_lo: (norms.least % (1 << 64)) as u64,
        greatest_hi: (norms.greatest >> 64) as u64,
        greatest_lo: (norms.greatest % (1 << 64)) as u64,
    }
}

// Of r vectors of `count` ranges each; "answers past r are marked unused".
pub fn vectors(lows: &[i64], highs: &[i64], count: usize, r: usize, bound: u128) -> [RangeNorms; 16]
    requires { AllCentred lows.now highs.now × (r ≤ 16) × (r * count ≤ length lows.now) × (r * count ≤ length highs.now) }
    ensures { result ≡ padded 16 r (range_norms unused) (λ i. range_norms (worked bound lows.now highs.now (i * count) count)) }
{
    let mut out = [RangeNorms::UNUSED; 16];
    for i in 0..r {
        out[i] = vector(lows, highs, i * count, count, bound);
    }
    out
}
