// The exported calls on the digits of an element.
ghost use Rattle.std.specs.Prelude.{◌≡◌, length};
ghost use Rattle.spec_leaves.specs.Leaf.{digit_operands};
ghost use Rattle.spec_leaves.specs.Rq.{left_row};
ghost use Rattle.api_leaf_answers.specs.Answers.{status_of, element_answer};
ghost use Rattle.api_leaf_answers.specs.Rows.{words_found, words_written};

use api_leaf_answers::answers;
use api_leaf_answers::answers::{ElementAnswer, Status};
use api_leaf_answers::digits::rq_digit_operands;
use ring_rq::rq::Rq;
use ring_rq_digits::digits;

// The digits of an element, written into the first 2048 words of a lent slice.
pub fn labrador_rq_digits(base: u32, parts: u32, a: Rq, out: &mut [u32]) -> Status
    ensures value { result ≡ status_of (words_found base parts a.coeffs (length out.old)) }
    ensures out_after { out.new ≡ words_written base parts a.coeffs out.old }
{
    api_leaf_answers::digits::rq_digits(base, parts, a, out)
}

// The size left over of each coefficient after its digits (document 02, Item 5).
pub fn labrador_rq_left(base: u32, parts: u32, a: Rq) -> ElementAnswer
    ensures { result ≡ element_answer (digit_operands base parts a.coeffs) (left_row base parts a.coeffs) }
{
    match rq_digit_operands(base, parts, a) {
        Ok(()) => {
            let coeffs = digits::left_over(a, base, parts as usize);
            answers::element_of(Ok(()), Rq { coeffs })
        }
        refused => answers::element_of(refused, Rq::zero()),
    }
}
