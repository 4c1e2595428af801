// A challenge of its sign words and shuffle words (`sample_challenge` of transcript/mod.rs).
ghost use Rattle.std.specs.Prelude.{◌≡◌, cond, ◌+◌, ◌%◌, ◌<◌, ◌≤◌, eqb, length};
ghost use Rattle.spec_leaves.specs.Zq.{zneg};
ghost use Rattle.spec_leaves.specs.Challenge.{start_size, start, shuffle, challenge};

use ring_rq::rq::Rq;
use ring_zq::zq::Zq;

// The size of coefficient k before the shuffle.
#[tactic(auto, using(std::proofs::lemmas::Bool::Decides::nat_tests))]
fn start_size(k: usize) -> u32
    ensures { result ≡ start_size k }
{
    if k < 31 {
        1
    } else if k < 41 {
        2
    } else {
        0
    }
}

// A size with the sign of a sign word: plus for 1, else minus.
fn with_sign(sign: u32, size: u32) -> u32
    ensures { result ≡ cond (eqb sign 1) size (zneg size) }
{
    if sign == 1 { size } else { Zq(size).neg().0 }
}

// The coefficients before the shuffle; those from 41 on are zero.
pub fn start_coefficients(signs: &[u32]) -> [u32; 64]
    requires { 41 ≤ length signs.now }
    ensures { result ≡ start signs.now }
{
    let mut coeffs = [0u32; 64];
    for k in 0..41 {
        coeffs[k] = with_sign(signs[k], start_size(k));
    }
    coeffs
}

// The place that a shuffle word gives: one of 0 to i.
fn place(word: u32, i: usize) -> usize
    requires { i < 64 }
    ensures { (result ≡ word % (i + 1)) × (result < 64) }
{
    word as usize % (i + 1)
}

// Place i, from 63 down to 1, exchanged with the place that its shuffle word gives.
pub fn shuffle_coefficients(words: &[u32], coeffs: [u32; 64]) -> [u32; 64]
    requires { 63 ≤ length words.now }
    ensures { result ≡ shuffle words.now coeffs }
{
    let mut a = coeffs;
    for k in 0..63 {
        a.swap(63 - k, place(words[k], 63 - k));
    }
    a
}

#[tactic(auto, unfolding(spec_leaves::specs::Challenge::challenge))]
pub fn sample_challenge(signs: &[u32], words: &[u32]) -> Rq
    requires { (41 ≤ length signs.now) × (63 ≤ length words.now) }
    ensures { result.coeffs ≡ challenge signs.now words.now }
{
    let start = start_coefficients(signs);
    Rq {
        coeffs: shuffle_coefficients(words, start),
    }
}
