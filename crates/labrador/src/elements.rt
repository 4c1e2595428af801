// The exported calls on ring elements.
ghost use Rattle.std.specs.Prelude.{◌≡◌, [], ◌∷◌, ◌++◌};
ghost use Rattle.spec_leaves.specs.Rq.{radd, rsub, rmul, rscale, rconj};
ghost use Rattle.spec_leaves.specs.Norm.{norm};
ghost use Rattle.spec_leaves.specs.Leaf.{canonical_words};
ghost use Rattle.api_leaf_answers.specs.Answers.{element_answer, norm_answer, challenge_answer};

use api_leaf_answers::answers;
use api_leaf_answers::answers::{ElementAnswer, NormAnswer};
use api_leaf_answers::challenge::challenge_of;
use api_operands::leaf;
use ntt_product::product;
use ring_rq::rq::Rq;
use ring_zq::zq::Zq;

// The sum of two elements.
pub fn labrador_rq_add(a: Rq, b: Rq) -> ElementAnswer
    ensures { result ≡ element_answer (canonical_words (a.coeffs ++ b.coeffs)) (radd a.coeffs b.coeffs) }
{
    answers::element_of(leaf::elements(a, b), a.add(b))
}

// The difference of two elements.
pub fn labrador_rq_sub(a: Rq, b: Rq) -> ElementAnswer
    ensures { result ≡ element_answer (canonical_words (a.coeffs ++ b.coeffs)) (rsub a.coeffs b.coeffs) }
{
    answers::element_of(leaf::elements(a, b), a.sub(b))
}

// The product of two elements.
pub fn labrador_rq_mul(a: Rq, b: Rq) -> ElementAnswer
    ensures { result ≡ element_answer (canonical_words (a.coeffs ++ b.coeffs)) (rmul a.coeffs b.coeffs) }
{
    answers::element_of(leaf::elements(a, b), a.mul(b))
}

// The product of two elements, by transforms.
pub fn labrador_rq_mul_fast(a: Rq, b: Rq) -> ElementAnswer
    ensures { result ≡ element_answer (canonical_words (a.coeffs ++ b.coeffs)) (rmul a.coeffs b.coeffs) }
{
    answers::element_of(leaf::elements(a, b), product::mul(a, b))
}

// The product of an element with a number.
pub fn labrador_rq_scale(a: Rq, c: u32) -> ElementAnswer
    ensures { result ≡ element_answer (canonical_words (a.coeffs ++ (c ∷ []))) (rscale a.coeffs c) }
{
    answers::element_of(leaf::element_and_number(a, c), a.scale(Zq(c)))
}

// The conjugate of an element.
pub fn labrador_rq_conj(a: Rq) -> ElementAnswer
    ensures { result ≡ element_answer (canonical_words a.coeffs) (rconj a.coeffs) }
{
    answers::element_of(leaf::element(a), a.conjugate_automorphism())
}

// The squared norm of an element.
pub fn labrador_rq_norm(a: Rq) -> NormAnswer
    ensures { result ≡ norm_answer (canonical_words a.coeffs) (norm a.coeffs) }
{
    answers::norm_of(leaf::element(a), a.l2_norm_squared())
}

// 41 sign words, then 63 shuffle words.
#[repr(C)]
#[derive(Clone, Copy)]
pub struct ChallengeWords {
    pub words: [u32; 104],
}

// The challenge of its words.
pub fn labrador_challenge(words: ChallengeWords) -> ElementAnswer
    ensures { result ≡ challenge_answer words.words }
{
    challenge_of(&words.words)
}
