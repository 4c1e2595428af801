// What the call on ranges answers.
ghost use Rattle.std.specs.Prelude.{◌≡◌};
ghost use Rattle.spec_leaves.specs.Answer.{number, place, of_refusal};
ghost use Rattle.ranges.specs.declared.answers.RangesError.TheVariants as Error;
ghost use Rattle.ranges.specs.Answers.{refused_ranges, of_ranges_error};

use api_answers::numbers::Numbered;
use ranges_vectors::vectors::RangeNorms;
use spec_leaves::answers::Refusal;

// A refusal's number and place with sixteen unused answers, or 0 and 0 with those of the r witness vectors.
#[repr(C)]
#[derive(Clone, Copy)]
pub struct RangesAnswer {
    pub number: u32,
    pub place: u64,
    pub vectors: [RangeNorms; 16],
}

// Why the lows and the highs are refused. The number held is the place.
#[derive(Clone, Copy, Debug, PartialEq, Eq)]
pub enum RangesError {
    Refused(Refusal),
    Crossed(usize),
    Beyond(usize),
}

impl From<Refusal> for RangesError {
    ghost from_gives = { λ refusal error. error ≡ Error.Refused refusal };

    fn from(refusal: Refusal) -> RangesError {
        RangesError::Refused(refusal)
    }
}

// A number and a place alone.
pub fn refused(number: u32, place: usize) -> RangesAnswer
    ensures { result ≡ refused_ranges number place }
{
    RangesAnswer {
        number,
        place: place as u64,
        vectors: [RangeNorms::UNUSED; 16],
    }
}

impl From<Refusal> for RangesAnswer {
    ghost from_gives = { λ refusal answer. answer ≡ refused_ranges (number (of_refusal refusal)) (place (of_refusal refusal)) };

    fn from(refusal: Refusal) -> RangesAnswer {
        let found = Numbered::from(refusal);
        refused(found.number, found.place)
    }
}

impl From<RangesError> for RangesAnswer {
    ghost from_gives = { λ error answer. answer ≡ refused_ranges (number (of_ranges_error error)) (place (of_ranges_error error)) };

    fn from(error: RangesError) -> RangesAnswer {
        match error {
            RangesError::Refused(refusal) => RangesAnswer::from(refusal),
            RangesError::Crossed(place) => refused(36, place),
            RangesError::Beyond(place) => refused(37, place),
        }
    }
}
