// The exported calls on digits that are put together again (document 02, Item 2).
ghost use Rattle.std.specs.Prelude.{◌≡◌};
ghost use Rattle.api_leaf_answers.specs.Recomposed.{recompose_answer, PartsAnswer};

use api_leaf_answers::answers;
use api_leaf_answers::answers::WordAnswer;
use api_recompose::{found, parts, sum};

// The value of digits in a base, lowest first.
pub fn labrador_recompose(base: u32, digits: &[u32]) -> WordAnswer
    ensures { result ≡ recompose_answer base digits.now }
{
    match found::recompose_operands(base, digits) {
        Ok(()) => answers::word_of(Ok(()), sum::recompose(base, digits).0),
        refused => answers::word_of(refused, 0),
    }
}

// The number of parts that a base needs.
pub fn labrador_parts_needed(base: u32) -> WordAnswer
    ensures { PartsAnswer base result }
{
    answers::word_of(found::base_found(base), parts::parts_needed(base))
}
