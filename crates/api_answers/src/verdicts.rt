// The answers of the exported calls on whole slices.
ghost use Rattle.std.specs.Prelude.{◌≡◌, ℕ, Result, IfOk};
ghost use Rattle.spec_leaves.specs.Answer.{accepted, of_refusal, of_failed, of_verdict, of_result};
ghost use Rattle.api_answers.specs.Calls.{labrador_answer, labrador_need, labrador_verdict, failed_check};

use crate::numbers::Numbered;
use spec_leaves::answers::{FailedCheck, Refusal, Verdict};

// A refusal's number and place, 0 and 0 where something was made.
#[repr(C)]
#[derive(Clone, Copy)]
pub struct LabradorAnswer {
    pub number: u32,
    pub place: u64,
}

// The length that a buffer needs, or the job's refusal.
#[repr(C)]
#[derive(Clone, Copy)]
pub struct LabradorNeed {
    pub number: u32,
    pub place: u64,
    pub words: u64,
}

// 0 where a transcript is accepted, with the number of cells that have something left; a refusal's number and place; or the number of the check that fails with its
// index and its two values.
#[repr(C)]
#[derive(Clone, Copy)]
pub struct LabradorVerdict {
    pub number: u32,
    pub index: u32,
    pub first_hi: u64,
    pub first_lo: u64,
    pub second_hi: u64,
    pub second_lo: u64,
    pub place: u64,
    pub cells_left: u64,
}

impl From<Refusal> for LabradorAnswer {
    ghost from_gives = { λ refusal answer. answer ≡ labrador_answer (of_refusal refusal) };

    fn from(refusal: Refusal) -> LabradorAnswer {
        let found = Numbered::from(refusal);
        LabradorAnswer {
            number: found.number,
            place: found.place as u64,
        }
    }
}

impl From<Result<(), Refusal>> for LabradorAnswer {
    ghost from_gives = { λ made answer. answer ≡ labrador_answer (of_result made) };

    fn from(made: Result<(), Refusal>) -> LabradorAnswer {
        match made {
            Ok(()) => LabradorAnswer {
                number: 0,
                place: 0,
            },
            Err(refusal) => LabradorAnswer::from(refusal),
        }
    }
}

impl From<Result<usize, Refusal>> for LabradorNeed {
    ghost from_gives = { λ found need. (words : ℕ) → IfOk found (λ length. length ≡ words) → need ≡ labrador_need (of_result found) words };

    fn from(found: Result<usize, Refusal>) -> LabradorNeed {
        match found {
            Ok(words) => LabradorNeed {
                number: 0,
                place: 0,
                words: words as u64,
            },
            Err(refusal) => {
                let answer = LabradorAnswer::from(refusal);
                LabradorNeed {
                    number: answer.number,
                    place: answer.place,
                    words: 0,
                }
            }
        }
    }
}

// A check that fails, with an index and two values.
fn failed(number: u32, index: usize, first: u128, second: u128) -> LabradorVerdict
    ensures { result ≡ failed_check number index first second }
{
    LabradorVerdict {
        number,
        index: (index % 4294967296) as u32,
        first_hi: (first >> 64) as u64,
        first_lo: (first % (1 << 64)) as u64,
        second_hi: (second >> 64) as u64,
        second_lo: (second % (1 << 64)) as u64,
        place: 0,
        cells_left: 0,
    }
}

impl From<FailedCheck> for LabradorVerdict {
    ghost from_gives = { λ check verdict. verdict ≡ labrador_verdict (of_failed check) };

    fn from(check: FailedCheck) -> LabradorVerdict {
        match check {
            FailedCheck::ProjectionNorm { norm, limit } => failed(21, 0, norm, limit),
            FailedCheck::B0Mismatch {
                index,
                sent,
                computed,
            } => failed(22, index, u128::from(sent), u128::from(computed)),
            FailedCheck::NormSum { sum, limit } => failed(23, 0, sum, limit),
            FailedCheck::Az => failed(24, 0, 0, 0),
            FailedCheck::ZInner => failed(25, 0, 0, 0),
            FailedCheck::Phi => failed(26, 0, 0, 0),
            FailedCheck::Relation => failed(27, 0, 0, 0),
            FailedCheck::OuterCommitU1 => failed(28, 0, 0, 0),
            FailedCheck::OuterCommitU2 => failed(29, 0, 0, 0),
        }
    }
}

impl From<Refusal> for LabradorVerdict {
    ghost from_gives = { λ refusal verdict. verdict ≡ labrador_verdict (of_refusal refusal) };

    fn from(refusal: Refusal) -> LabradorVerdict {
        let found = Numbered::from(refusal);
        LabradorVerdict {
            place: found.place as u64,
            ..failed(found.number, 0, 0, 0)
        }
    }
}

// An acceptance holds the number of cells with something left.
impl From<Verdict> for LabradorVerdict {
    ghost from_gives = { λ verdict told. told ≡ labrador_verdict (of_verdict verdict) };

    fn from(verdict: Verdict) -> LabradorVerdict {
        match verdict {
            Verdict::Accepted(cells_left) => LabradorVerdict {
                cells_left: cells_left as u64,
                ..failed(0, 0, 0, 0)
            },
            Verdict::Refused(refusal) => LabradorVerdict::from(refusal),
            Verdict::Failed(check) => LabradorVerdict::from(check),
        }
    }
}
