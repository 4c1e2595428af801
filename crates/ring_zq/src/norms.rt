// The squared norm of a run of words (`Norms` of ring/mod.rs).
// A slice is passed whole with the place of its run: contracts speak of places in the whole slice, and a struct of the two would be built anew at each call.
ghost use Rattle.std.specs.Prelude.{◌≡◌, ◌+◌, ◌*◌, ◌^◌, ◌≤◌, length};
ghost use Rattle.math.specs.lists.Part.{part};
ghost use Rattle.spec_leaves.specs.Norm.{norm};

use crate::norm;
use crate::zq::Zq;

// The sum with the squares of the `count` words from `at` on added.
pub fn add_norm(sum: u128, words: &[u32], at: usize, count: usize) -> u128
    requires { (at + count ≤ length words.now) × (sum + count * 2 ^ 64 ≤ 2 ^ 128) }
    ensures { (result ≡ sum + norm (part words.now at count)) × (result ≤ sum + count * 2 ^ 64) }
{
    let mut total = sum;
    for k in 0..count {
        total = norm::add_square(total, Zq(words[at + k]).size());
    }
    total
}

// The squared norm of the `count` words from `at` on.
pub fn norm_of(words: &[u32], at: usize, count: usize) -> u128
    requires { at + count ≤ length words.now }
    ensures { (result ≡ norm (part words.now at count)) × (result ≤ count * 2 ^ 64) }
{
    add_norm(0, words, at, count)
}
