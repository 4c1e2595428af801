// The digits of an element: 32 rows of 64, rows past the parts zero, and all zero where the operands are refused.
ghost use Rattle.std.specs.Prelude.{◌≡◌, Result, ◌≤◌, length};
ghost use Rattle.math.specs.lists.Part.{splice};
ghost use Rattle.spec_leaves.specs.Answer.{of_operands};
ghost use Rattle.spec_leaves.specs.Leaf.{digit_operands};
ghost use Rattle.api_leaf_answers.specs.Answers.{status_of};
ghost use Rattle.api_leaf_answers.specs.Rows.{rows_or_zero, row_words, words_found, words_written};

use crate::answers::Status;
use api_operands::leaf;
use ring_rq::rq::Rq;
use ring_rq_digits::digits;
use spec_leaves::answers::OperandError;

// What is found of a base, a number of parts and an element.
pub fn rq_digit_operands(base: u32, parts: u32, a: Rq) -> Result<(), OperandError>
    ensures { of_operands result ≡ digit_operands base parts a.coeffs }
{
    leaf::digit_operands(base, parts, &a.coeffs)
}

// The rows by value. `rq_digit_operands` tells a refusal.
pub fn rq_digit_rows(base: u32, parts: u32, a: Rq) -> [[u32; 64]; 32]
    ensures { result ≡ rows_or_zero base parts a.coeffs }
{
    match rq_digit_operands(base, parts, a) {
        Ok(()) => digits::decompose(a, base, parts as usize),
        Err(_) => {
            let zero = Rq::zero().coeffs;
            [zero; 32]
        }
    }
}

// Stores the rows one after the other.
pub fn store_rows(rows: [[u32; 64]; 32], out: &mut [u32])
    requires { 2048 ≤ length out.old }
    ensures { out.new ≡ splice out.old 0 (row_words rows) }
{
    for k in 0..32 {
        let row = rows[k];
        ring_words::store(out, 64 * k, Rq { coeffs: row });
    }
}

// The digits of an element, written into the first 2048 words of a lent slice.
pub fn rq_digits(base: u32, parts: u32, a: Rq, out: &mut [u32]) -> Status
    ensures value { result ≡ status_of (words_found base parts a.coeffs (length out.old)) }
    ensures out_after { out.new ≡ words_written base parts a.coeffs out.old }
{
    let found = rq_digit_operands(base, parts, a);
    if out.len() < 2048 {
        return match found {
            Ok(()) => Status {
                number: 2,
                place: 2048,
            },
            Err(_) => Status::from(found),
        };
    }
    store_rows(rq_digit_rows(base, parts, a), out);
    Status::from(found)
}
