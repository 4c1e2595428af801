// The exported calls on ring elements.
ghost use Rattle.std.specs.Prelude.{◌≡◌, [], ◌∷◌, ◌++◌};
ghost use Rattle.spec_leaves.specs.Rq.{radd, rsub, rmul, rscale, rconj};
ghost use Rattle.spec_leaves.specs.Norm.{norm};
ghost use Rattle.spec_leaves.specs.Leaf.{canonical_words};
ghost use Rattle.api_leaf_answers.specs.Answers.{element_answer, norm_answer, challenge_answer};

use api_leaf_answers::answers::{ElementAnswer, NormAnswer};
use labrador::elements::ChallengeWords;
use ring_rq::rq::Rq;

// The sum of two elements.
#[unsafe(no_mangle)]
pub extern "C" fn labrador_rq_add(a: Rq, b: Rq) -> ElementAnswer
    ensures { result ≡ element_answer (canonical_words (a.coeffs ++ b.coeffs)) (radd a.coeffs b.coeffs) }
{
    labrador::elements::labrador_rq_add(a, b)
}

// The difference of two elements.
#[unsafe(no_mangle)]
pub extern "C" fn labrador_rq_sub(a: Rq, b: Rq) -> ElementAnswer
    ensures { result ≡ element_answer (canonical_words (a.coeffs ++ b.coeffs)) (rsub a.coeffs b.coeffs) }
{
    labrador::elements::labrador_rq_sub(a, b)
}

// The product of two elements.
#[unsafe(no_mangle)]
pub extern "C" fn labrador_rq_mul(a: Rq, b: Rq) -> ElementAnswer
    ensures { result ≡ element_answer (canonical_words (a.coeffs ++ b.coeffs)) (rmul a.coeffs b.coeffs) }
{
    labrador::elements::labrador_rq_mul(a, b)
}

// The product of two elements, by transforms.
#[unsafe(no_mangle)]
pub extern "C" fn labrador_rq_mul_fast(a: Rq, b: Rq) -> ElementAnswer
    ensures { result ≡ element_answer (canonical_words (a.coeffs ++ b.coeffs)) (rmul a.coeffs b.coeffs) }
{
    labrador::elements::labrador_rq_mul_fast(a, b)
}

// The product of an element with a number.
#[unsafe(no_mangle)]
pub extern "C" fn labrador_rq_scale(a: Rq, c: u32) -> ElementAnswer
    ensures { result ≡ element_answer (canonical_words (a.coeffs ++ (c ∷ []))) (rscale a.coeffs c) }
{
    labrador::elements::labrador_rq_scale(a, c)
}

// The conjugate of an element.
#[unsafe(no_mangle)]
pub extern "C" fn labrador_rq_conj(a: Rq) -> ElementAnswer
    ensures { result ≡ element_answer (canonical_words a.coeffs) (rconj a.coeffs) }
{
    labrador::elements::labrador_rq_conj(a)
}

// The squared norm of an element.
#[unsafe(no_mangle)]
pub extern "C" fn labrador_rq_norm(a: Rq) -> NormAnswer
    ensures { result ≡ norm_answer (canonical_words a.coeffs) (norm a.coeffs) }
{
    labrador::elements::labrador_rq_norm(a)
}

// The challenge of its words.
#[unsafe(no_mangle)]
pub extern "C" fn labrador_challenge(words: ChallengeWords) -> ElementAnswer
    ensures { result ≡ challenge_answer words.words }
{
    labrador::elements::labrador_challenge(words)
}
