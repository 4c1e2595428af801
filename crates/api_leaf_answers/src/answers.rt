// The answers of the exported leaf calls: a refusal's number or 0, its place, and the result, which is zero on a refusal.
ghost use Rattle.std.specs.Prelude.{◌≡◌, Result};
ghost use Rattle.spec_leaves.specs.Answer.{of_operands, result_of};
ghost use Rattle.api_leaf_answers.specs.Answers.{status_of, word_answer, centre_answer, element_answer, norm_answer};

use ring_rq::rq::Rq;
use spec_leaves::answers::OperandError;

#[repr(C)]
#[derive(Clone, Copy)]
pub struct Status {
    pub number: u32,
    pub place: u32,
}

#[repr(C)]
#[derive(Clone, Copy)]
pub struct WordAnswer {
    pub number: u32,
    pub place: u32,
    pub value: u32,
}

#[repr(C)]
#[derive(Clone, Copy)]
pub struct CentreAnswer {
    pub number: u32,
    pub place: u32,
    pub value: i64,
}

// The digits and the size left over (document 02, Item 5).
#[repr(C)]
#[derive(Clone, Copy)]
pub struct DigitsAnswer {
    pub number: u32,
    pub place: u32,
    pub digits: [u32; 32],
    pub left: u32,
}

#[repr(C)]
#[derive(Clone, Copy)]
pub struct ElementAnswer {
    pub number: u32,
    pub place: u32,
    pub coeffs: [u32; 64],
}

// The norm is hi · 2^64 + lo.
#[repr(C)]
#[derive(Clone, Copy)]
pub struct NormAnswer {
    pub number: u32,
    pub place: u32,
    pub hi: u64,
    pub lo: u64,
}

impl From<Result<(), OperandError>> for Status {
    ghost from_gives = { λ found status. status ≡ status_of (of_operands found) };

    fn from(found: Result<(), OperandError>) -> Status {
        match found {
            Ok(()) => Status {
                number: 0,
                place: 0,
            },
            Err(OperandError::ParameterOutOfLimits(place)) => Status { number: 4, place },
            Err(OperandError::Word(place)) => Status { number: 6, place },
            Err(OperandError::SignWord(place)) => Status { number: 8, place },
            Err(OperandError::BaseOrParts(place)) => Status { number: 31, place },
        }
    }
}

// The value where the operands fit, else none of it.
fn kept<T: Drop>(found: Result<(), OperandError>, value: T, none: T) -> T
    ensures { result ≡ result_of (of_operands found) value none }
{
    match found {
        Ok(()) => value,
        Err(_) => none,
    }
}

pub fn word_of(found: Result<(), OperandError>, value: u32) -> WordAnswer
    ensures { result ≡ word_answer (of_operands found) value }
{
    let status = Status::from(found);
    WordAnswer {
        number: status.number,
        place: status.place,
        value: kept(found, value, 0),
    }
}

pub fn centre_of(found: Result<(), OperandError>, value: i64) -> CentreAnswer
    ensures { result ≡ centre_answer (of_operands found) value }
{
    let status = Status::from(found);
    CentreAnswer {
        number: status.number,
        place: status.place,
        value: kept(found, value, 0),
    }
}

pub fn element_of(found: Result<(), OperandError>, value: Rq) -> ElementAnswer
    ensures { result ≡ element_answer (of_operands found) value.coeffs }
{
    let status = Status::from(found);
    ElementAnswer {
        number: status.number,
        place: status.place,
        coeffs: kept(found, value.coeffs, Rq::zero().coeffs),
    }
}

pub fn norm_of(found: Result<(), OperandError>, norm: u128) -> NormAnswer
    ensures { result ≡ norm_answer (of_operands found) norm }
{
    let status = Status::from(found);
    let norm = kept(found, norm, 0);
    NormAnswer {
        number: status.number,
        place: status.place,
        hi: (norm >> 64) as u64,
        lo: (norm % (1 << 64)) as u64,
    }
}
