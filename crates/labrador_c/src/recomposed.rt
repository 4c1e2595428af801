// The exported calls on digits that are put together again (document 02, Item 2).
ghost use Rattle.std.specs.Prelude.{◌≡◌};
ghost use Rattle.api_leaf_answers.specs.Recomposed.{recompose_answer, PartsAnswer};

use api_leaf_answers::answers::WordAnswer;

// The value of digits in a base, lowest first.
#[unsafe(no_mangle)]
pub extern "C" fn labrador_recompose(base: u32, digits: &[u32]) -> WordAnswer
    ensures { result ≡ recompose_answer base digits.now }
{
    labrador::recomposed::labrador_recompose(base, digits)
}

// The number of parts that a base needs.
#[unsafe(no_mangle)]
pub extern "C" fn labrador_parts_needed(base: u32) -> WordAnswer
    ensures { PartsAnswer base result }
{
    labrador::recomposed::labrador_parts_needed(base)
}
