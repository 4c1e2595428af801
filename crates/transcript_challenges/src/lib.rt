// The challenges c_i of a randomness (`generate_challenges` of transcript/mod.rs), and z = Σ s_i·c_i (prover.rs).
// A slice is passed whole with the place of its run: contracts speak of places in the whole slice, and a struct of the two would be built anew at each call.
#![tactic(auto)]

ghost use Rattle.std.specs.Prelude.{◌≡◌, ◌+◌, ◌*◌, ◌≤◌, length};
ghost use Rattle.math.specs.lists.Part.{part, splice};
ghost use Rattle.spec_leaves.specs.Challenge.{challenge as challenge_of};
ghost use Rattle.spec_protocol.specs.Formulas.{flat};
ghost use Rattle.ring_challenge_products.specs.Powers.{AllSparse};
ghost use Rattle.transcript_challenges.specs.Challenges.{challenges, z_of};

use ring_challenge_products::{powers, products};
use ring_rq::rq::Rq;
use transcript_words::challenge;

// The challenge of the 41 sign words and the 63 shuffle words from two places on.
pub fn challenge_at(words: &[u32], signs: usize, shuffle: usize) -> Rq
    requires { (signs + 41 ≤ length words.now) × (shuffle + 63 ≤ length words.now) }
    ensures { result.coeffs ≡ challenge_of (part words.now signs 41) (part words.now shuffle 63) }
{
    challenge::sample_challenge(&words[signs..signs + 41], &words[shuffle..shuffle + 63])
}

// r challenges, of the sign words and the shuffle words that stand one after the other.
pub fn generate_challenges(
    words: &[u32],
    signs_at: usize,
    shuffle_at: usize,
    r: usize,
    out: &mut [u32],
    out_at: usize,
)
    requires { (signs_at + 41 * r ≤ length words.now) × (shuffle_at + 63 * r ≤ length words.now) × (out_at + 64 * r ≤ length out.old) }
    ensures { out.new ≡ splice out.old out_at (flat (challenges words.now signs_at shuffle_at r)) }
{
    let mut signs = signs_at;
    let mut shuffle = shuffle_at;
    let mut place = out_at;
    for i in 0..r {
        ring_words::store(out, place, challenge_at(words, signs, shuffle));
        signs += 41;
        shuffle += 63;
        place += 64;
    }
}

// z = Σ s_i·c_i, of r vectors s_i of n elements and r factors with few coefficients, whose places are made once.
pub fn compute_z(
    s: &[u32],
    s_at: usize,
    c: &[u32],
    c_at: usize,
    r: usize,
    n: usize,
    out: &mut [u32],
    out_at: usize,
)
    requires { (s_at + 64 * (r * n) ≤ length s.now) × (c_at + 64 * r ≤ length c.now) × (out_at + 64 * n ≤ length out.old) × (r ≤ 16) × (n ≤ 64) × AllSparse c.now c_at r }
    ensures { out.new ≡ splice out.old out_at (flat (z_of s.now s_at c.now c_at r n)) }
{
    let mut rows = [0u32; 1024];
    powers::store(c, c_at, r, &mut rows);
    let mut place = out_at;
    for m in 0..n {
        let element = products::inner_product(&rows, s, s_at + 64 * m, 64 * n, r);
        ring_words::store(out, place, element);
        place += 64;
    }
}
