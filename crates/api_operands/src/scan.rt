// The search for the first bad word.
ghost use Rattle.std.specs.Prelude.{◌≡◌, Result, ◌+◌, ◌^◌, ◌<◌, length, true, All, position, nat_le};
ghost use Rattle.spec_leaves.specs.Zq.{Q};
ghost use Rattle.spec_leaves.specs.Answer.{of_operands, below};
ghost use Rattle.spec_leaves.specs.Leaf.{sign_words};

use ring_zq::zq::Zq;
use spec_leaves::answers::OperandError;

// Whether every word is below the limit. It looks at all of them, so it runs on several words at a time, which `iter().all(..)` does not.
fn all_below(words: &[u32], limit: u32) -> bool
    ensures { result ≡ true → All (λ word. word < limit) words.now }
{
    let mut fit = true;
    for word in words {
        if *word >= limit {
            fit = false;
        }
    }
    fit
}

// The index of the first word at or above the limit.
pub fn first_not_below(words: &[u32], limit: u32) -> Option<usize>
    ensures { result ≡ position (λ word. nat_le limit word) words.now }
{
    if all_below(words, limit) {
        return None;
    }
    words.iter().position(|word| limit <= *word)
}

// Whether words are canonical, the first of them at a place.
pub fn words_from(words: &[u32], place: u32) -> Result<(), OperandError>
    requires { place + length words.now < 2 ^ 32 }
    ensures { of_operands result ≡ below Q 6 place words.now }
{
    match first_not_below(words, Zq::Q) {
        Some(i) => Err(OperandError::Word(place + i as u32)),
        None => Ok(()),
    }
}

// Whether sign words are 0 or 1.
pub fn sign_words(signs: &[u32]) -> Result<(), OperandError>
    requires { length signs.now < 2 ^ 32 }
    ensures { of_operands result ≡ sign_words signs.now }
{
    match first_not_below(signs, 2) {
        Some(i) => Err(OperandError::SignWord(i as u32)),
        None => Ok(()),
    }
}
