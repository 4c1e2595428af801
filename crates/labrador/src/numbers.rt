// The exported calls on numbers modulo Q.
ghost use Rattle.std.specs.Prelude.{◌≡◌, [], ◌∷◌};
ghost use Rattle.spec_leaves.specs.Zq.{zadd, zsub, zneg, zmul, centre};
ghost use Rattle.spec_leaves.specs.Digits.{decomposed};
ghost use Rattle.spec_leaves.specs.Projection.{entry};
ghost use Rattle.spec_leaves.specs.Leaf.{canonical_words, digit_operands};
ghost use Rattle.api_leaf_answers.specs.Answers.{word_answer, centre_answer, digits_answer};

use api_leaf_answers::answers;
use api_leaf_answers::answers::{CentreAnswer, DigitsAnswer, Status, WordAnswer};
use api_operands::leaf;
use ring_zq::digits;
use ring_zq::zq::Zq;
use spec_leaves::answers::Decomposed;
use transcript_words::projection;

// The sum of two numbers.
pub fn labrador_zq_add(a: u32, b: u32) -> WordAnswer
    ensures { result ≡ word_answer (canonical_words (a ∷ b ∷ [])) (zadd a b) }
{
    answers::word_of(leaf::numbers(a, b), Zq(a).add(Zq(b)).0)
}

// The difference of two numbers.
pub fn labrador_zq_sub(a: u32, b: u32) -> WordAnswer
    ensures { result ≡ word_answer (canonical_words (a ∷ b ∷ [])) (zsub a b) }
{
    answers::word_of(leaf::numbers(a, b), Zq(a).sub(Zq(b)).0)
}

// The product of two numbers.
pub fn labrador_zq_mul(a: u32, b: u32) -> WordAnswer
    ensures { result ≡ word_answer (canonical_words (a ∷ b ∷ [])) (zmul a b) }
{
    answers::word_of(leaf::numbers(a, b), Zq(a).mul(Zq(b)).0)
}

// The negative of a number.
pub fn labrador_zq_neg(a: u32) -> WordAnswer
    ensures { result ≡ word_answer (canonical_words (a ∷ [])) (zneg a) }
{
    answers::word_of(leaf::number(a), Zq(a).neg().0)
}

// The centre of a number.
pub fn labrador_zq_centre(a: u32) -> CentreAnswer
    ensures { result ≡ centre_answer (canonical_words (a ∷ [])) (centre a) }
{
    answers::centre_of(leaf::number(a), Zq(a).centered_mod())
}

// The digits of a number in 32 places, and the size left over.
pub fn labrador_zq_digits(base: u32, parts: u32, a: u32) -> DigitsAnswer
    ensures { result ≡ digits_answer (digit_operands base parts (a ∷ [])) (decomposed base parts a) }
{
    let found = leaf::digit_operands(base, parts, &[a]);
    let status = Status::from(found);
    let Decomposed { digits, left } = match found {
        Ok(()) => digits::decompose(Zq(a), base, parts as usize),
        Err(_) => Decomposed {
            digits: [0u32; 32],
            left: 0,
        },
    };
    DigitsAnswer {
        number: status.number,
        place: status.place,
        digits,
        left,
    }
}

// The projection's entry that a word stands for.
pub fn labrador_projection_entry(word: u32) -> WordAnswer
    ensures { result ≡ word_answer (canonical_words (word ∷ [])) (entry word) }
{
    answers::word_of(leaf::number(word), projection::projection_entry(word).0)
}
