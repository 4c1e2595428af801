// The exported calls on numbers modulo Q.
ghost use Rattle.std.specs.Prelude.{◌≡◌, [], ◌∷◌};
ghost use Rattle.spec_leaves.specs.Zq.{zadd, zsub, zneg, zmul, centre};
ghost use Rattle.spec_leaves.specs.Digits.{decomposed};
ghost use Rattle.spec_leaves.specs.Projection.{entry};
ghost use Rattle.spec_leaves.specs.Leaf.{canonical_words, digit_operands};
ghost use Rattle.api_leaf_answers.specs.Answers.{word_answer, centre_answer, digits_answer};

use api_leaf_answers::answers::{CentreAnswer, DigitsAnswer, WordAnswer};

// The sum of two numbers.
#[unsafe(no_mangle)]
pub extern "C" fn labrador_zq_add(a: u32, b: u32) -> WordAnswer
    ensures { result ≡ word_answer (canonical_words (a ∷ b ∷ [])) (zadd a b) }
{
    labrador::numbers::labrador_zq_add(a, b)
}

// The difference of two numbers.
#[unsafe(no_mangle)]
pub extern "C" fn labrador_zq_sub(a: u32, b: u32) -> WordAnswer
    ensures { result ≡ word_answer (canonical_words (a ∷ b ∷ [])) (zsub a b) }
{
    labrador::numbers::labrador_zq_sub(a, b)
}

// The product of two numbers.
#[unsafe(no_mangle)]
pub extern "C" fn labrador_zq_mul(a: u32, b: u32) -> WordAnswer
    ensures { result ≡ word_answer (canonical_words (a ∷ b ∷ [])) (zmul a b) }
{
    labrador::numbers::labrador_zq_mul(a, b)
}

// The negative of a number.
#[unsafe(no_mangle)]
pub extern "C" fn labrador_zq_neg(a: u32) -> WordAnswer
    ensures { result ≡ word_answer (canonical_words (a ∷ [])) (zneg a) }
{
    labrador::numbers::labrador_zq_neg(a)
}

// The centre of a number.
#[unsafe(no_mangle)]
pub extern "C" fn labrador_zq_centre(a: u32) -> CentreAnswer
    ensures { result ≡ centre_answer (canonical_words (a ∷ [])) (centre a) }
{
    labrador::numbers::labrador_zq_centre(a)
}

// The digits of a number in 32 places, and the size left over.
#[unsafe(no_mangle)]
pub extern "C" fn labrador_zq_digits(base: u32, parts: u32, a: u32) -> DigitsAnswer
    ensures { result ≡ digits_answer (digit_operands base parts (a ∷ [])) (decomposed base parts a) }
{
    labrador::numbers::labrador_zq_digits(base, parts, a)
}

// The projection's entry that a word stands for.
#[unsafe(no_mangle)]
pub extern "C" fn labrador_projection_entry(word: u32) -> WordAnswer
    ensures { result ≡ word_answer (canonical_words (word ∷ [])) (entry word) }
{
    labrador::numbers::labrador_projection_entry(word)
}
