// Elements and runs of words in lent slices.
// A slice is passed whole with the place of its run: contracts speak of places in the whole slice, and a struct of the two would be built anew at each call.
#![tactic(auto)]

ghost use Rattle.std.specs.Prelude.{◌≡◌, ◌∷◌, ◌+◌, ◌≤◌, ◌<◌, ◌^◌, length, replicate};
ghost use Rattle.math.specs.lists.Part.{part, splice};

use ring_rq::rq::Rq;

// The element whose words stand from `at` on.
pub fn load(words: &[u32], at: usize) -> Rq
    requires { at + 64 ≤ length words.now }
    ensures { result.coeffs ≡ part words.now at 64 }
{
    let mut coeffs = [0u32; Rq::DEGREE];
    coeffs.copy_from_slice(&words[at..at + Rq::DEGREE]);
    Rq { coeffs }
}

// The element's words stored from `at` on.
pub fn store(words: &mut [u32], at: usize, element: Rq)
    requires { at + 64 ≤ length words.old }
    ensures { words.new ≡ splice words.old at element.coeffs }
{
    words[at..at + Rq::DEGREE].copy_from_slice(&element.coeffs);
}

// `count` words of `from` from `start` on copied to `to` from `at` on.
pub fn copy(to: &mut [u32], at: usize, from: &[u32], start: usize, count: usize)
    requires { (at + count ≤ length to.old) × (start + count ≤ length from.now) }
    ensures { to.new ≡ splice to.old at (part from.now start count) }
{
    to[at..at + count].copy_from_slice(&from[start..start + count]);
}

// `count` words from `at` on set to zero.
pub fn clear_run(words: &mut [u32], at: usize, count: usize)
    requires { at + count ≤ length words.old }
    ensures { words.new ≡ splice words.old at (replicate count 0) }
{
    words[at..at + count].fill(0);
}

// The first `count` words set to zero.
pub fn clear(words: &mut [u32], count: usize)
    requires { count ≤ length words.old }
    ensures { words.new ≡ splice words.old 0 (replicate count 0) }
{
    clear_run(words, 0, count)
}

// A section: its count, then its words, `count` words of `from` from `start` on.
pub fn put_section(to: &mut [u32], at: usize, from: &[u32], start: usize, count: usize)
    requires { (at + 1 + count ≤ length to.old) × (start + count ≤ length from.now) × (count < 2 ^ 32) }
    ensures { to.new ≡ splice to.old at (count ∷ part from.now start count) }
{
    to[at] = count as u32;
    copy(to, at + 1, from, start, count);
}
