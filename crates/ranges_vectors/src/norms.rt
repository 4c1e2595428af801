// The smallest and the largest squared norm of numbers that are known within ranges.
ghost use Rattle.std.specs.Prelude.{◌≡◌, ◌+◌, ◌*◌, ◌≤◌, ◌<◌, ◌^◌, nat_abs, length};
ghost use Rattle.std.specs.Int.{w64};
ghost use Rattle.std.proofs.Common.{SFits};
ghost use Rattle.spec_protocol.specs.Ranges.{number_at, square, norm};
ghost use Rattle.ranges_vectors.specs.Ends.{Centred, AllCentred, nearest, farthest, picked};

use ring_zq::norm;

// The smallest and the largest norm.
#[derive(Clone, Copy)]
pub struct Norms {
    pub least: u128,
    pub greatest: u128,
}

// The size of a centred number.
fn size(x: i64) -> u32
    requires { Centred x }
    ensures { result ≡ nat_abs x }
{
    x.unsigned_abs() as u32
}

// The smallest size in a range.
fn smallest(low: i64, high: i64) -> u32
    requires { Centred low × Centred high }
    ensures { result ≡ nat_abs (nearest low high) }
{
    if 0 < low {
        return size(low);
    }
    if high < 0 {
        return size(high);
    }
    0
}

// The largest size in a range.
fn largest(low: i64, high: i64) -> u32
    requires { Centred low × Centred high }
    ensures { result ≡ nat_abs (farthest low high) }
{
    size(low).max(size(high))
}

// Number `at` of a slice.
pub fn number(xs: &[i64], at: usize) -> i64
    requires { at < length xs.now }
    ensures { (result ≡ number_at xs.now at) × SFits w64 result }
{
    xs[at]
}

// The norms with those of one more range added.
fn add_range(sum: Norms, low: i64, high: i64) -> Norms
    requires room { (sum.least + 2 ^ 64 ≤ 2 ^ 128) × (sum.greatest + 2 ^ 64 ≤ 2 ^ 128) }
    requires centred { Centred low × Centred high }
    ensures least_value { (result.least ≡ sum.least + square (nearest low high)) × (result.least ≤ sum.least + 2 ^ 64) }
    ensures greatest_value { (result.greatest ≡ sum.greatest + square (farthest low high)) × (result.greatest ≤ sum.greatest + 2 ^ 64) }
{
    Norms {
        least: norm::add_square(sum.least, smallest(low, high)),
        greatest: norm::add_square(sum.greatest, largest(low, high)),
    }
}

// The norms of the `count` ranges from `at` on.
pub fn norms_of(lows: &[i64], highs: &[i64], at: usize, count: usize) -> Norms
    requires { AllCentred lows.now highs.now × (at + count ≤ length lows.now) × (at + count ≤ length highs.now) }
    ensures least_value { result.least ≡ norm (picked nearest lows.now highs.now at count) }
    ensures greatest_value { result.greatest ≡ norm (picked farthest lows.now highs.now at count) }
{
    let mut total = Norms {
        least: 0,
        greatest: 0,
    };
    for j in 0..count {
        total = add_range(total, number(lows, at + j), number(highs, at + j));
    }
    total
}
