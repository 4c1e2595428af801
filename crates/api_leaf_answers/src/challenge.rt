// The answer of the challenge's call.
ghost use Rattle.std.specs.Prelude.{◌≡◌, length};
ghost use Rattle.api_leaf_answers.specs.Answers.{challenge_answer};

use crate::answers;
use crate::answers::ElementAnswer;
use api_operands::scan;
use transcript_words::challenge;

// The challenge of 41 sign words, then 63 shuffle words.
pub fn challenge_of(words: &[u32]) -> ElementAnswer
    requires { length words.now ≡ 104 }
    ensures { result ≡ challenge_answer words.now }
{
    let (signs, shuffle) = words.split_at(41);
    let found = scan::sign_words(signs);
    answers::element_of(found, challenge::sample_challenge(signs, shuffle))
}
