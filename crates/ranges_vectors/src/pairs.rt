// The pairs of lows and highs: 36 and 37.
ghost use Rattle.std.specs.Prelude.{◌≡◌, ◌||◌, ◌≤◌, length};
ghost use Rattle.std.specs.Int.Signed.{le_z};
ghost use Rattle.spec_protocol.specs.Ranges.{beyond_refusal, crossed_refusal};
ghost use Rattle.ranges_vectors.specs.Pairs.{is_beyond, found};

use crate::norms::number;
use spec_leaves::modulus;

// Whether a number is no value's centre.
fn is_beyond(x: i64) -> bool
    ensures { result ≡ is_beyond x }
{
    x < modulus::MINUS_HALF || modulus::HALF_I64 < x
}

// Whether one of a pair is.
fn either_beyond(low: i64, high: i64) -> bool
    ensures { result ≡ is_beyond low || is_beyond high }
{
    is_beyond(low) || is_beyond(high)
}

// Whether a low is at most its high.
fn in_order(low: i64, high: i64) -> bool
    ensures { result ≡ le_z low high }
{
    low <= high
}

// 37: the first pair with a number that is no centre.
pub fn first_beyond(lows: &[i64], highs: &[i64], count: usize) -> Option<usize>
    requires { (count ≤ length lows.now) × (count ≤ length highs.now) }
    ensures { found 37 result ≡ beyond_refusal count lows.now highs.now }
{
    for j in 0..count {
        if either_beyond(number(lows, j), number(highs, j)) {
            return Some(j);
        }
    }
    None
}

// 36: the first pair whose low is above its high.
pub fn first_crossed(lows: &[i64], highs: &[i64], count: usize) -> Option<usize>
    requires { (count ≤ length lows.now) × (count ≤ length highs.now) }
    ensures { found 36 result ≡ crossed_refusal count lows.now highs.now }
{
    for j in 0..count {
        if !in_order(number(lows, j), number(highs, j)) {
            return Some(j);
        }
    }
    None
}
