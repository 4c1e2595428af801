// Answers compared with the recorded ones: in a record's body number, place and result follow the operands.
ghost use Rattle.std.specs.Prelude.{◌<◌};

use api_leaf_answers::answers::{ElementAnswer, WordAnswer};
use replay_records::words;

// Whether a number and a place stand at word k.
pub fn same_refusal(body: &[u8], k: usize, number: u32, place: u32) -> bool
    requires { k < 4000 }
{
    number == words::at(body, k) && place == words::at(body, k + 1)
}

pub fn same_zq(body: &[u8], k: usize, answer: WordAnswer) -> bool
    requires { k < 4000 }
{
    same_refusal(body, k, answer.number, answer.place) && answer.value == words::at(body, k + 2)
}

pub fn same_rq(body: &[u8], k: usize, answer: ElementAnswer) -> bool
    requires { k < 4000 }
{
    same_refusal(body, k, answer.number, answer.place) && words::same(body, k + 2, &answer.coeffs)
}
