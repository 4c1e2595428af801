// What the call on many transcripts answers.
ghost use Rattle.std.specs.Prelude.{◌≡◌};
ghost use Rattle.spec_leaves.specs.Answer.{number, place, of_refusal};
ghost use Rattle.verify_many.specs.Answers.{refused_verdicts};

use crate::verdicts::all::eight;
use api_answers::numbers::Numbered;
use api_answers::verdicts::LabradorVerdict;
use spec_leaves::answers::Refusal;

// 0 and 0 with eight verdicts, those past the number of transcripts unused (4294967295); or the refusal of the whole call with zeros.
#[repr(C)]
#[derive(Clone, Copy)]
pub struct LabradorVerdicts {
    pub number: u32,
    pub place: u64,
    pub verdicts: [LabradorVerdict; 8],
}

// A number and a place alone.
pub fn refused(number: u32, place: usize) -> LabradorVerdicts
    ensures { result ≡ refused_verdicts number place }
{
    let verdicts = eight(0);
    LabradorVerdicts {
        number,
        place: place as u64,
        verdicts,
    }
}

impl From<Refusal> for LabradorVerdicts {
    ghost from_gives = { λ refusal answer. answer ≡ refused_verdicts (number (of_refusal refusal)) (place (of_refusal refusal)) };

    fn from(refusal: Refusal) -> LabradorVerdicts {
        let found = Numbered::from(refusal);
        refused(found.number, found.place)
    }
}
