// The refusals' numbers.
ghost use Rattle.std.specs.Prelude.{◌≡◌};
ghost use Rattle.spec_leaves.specs.Answer.{number, place, of_refusal};

use spec_leaves::answers::Refusal;

// A refusal's number in document 01, and its place.
#[derive(Clone, Copy)]
pub struct Numbered {
    pub number: u32,
    pub place: usize,
}

impl From<Refusal> for Numbered {
    ghost from_gives = { λ refusal found. (found.number ≡ number (of_refusal refusal)) × (found.place ≡ place (of_refusal refusal)) };

    fn from(refusal: Refusal) -> Numbered {
        match refusal {
            Refusal::ScratchTooShort(place) => Numbered { number: 1, place },
            Refusal::OutputTooShort(place) => Numbered { number: 2, place },
            Refusal::JobLayout(place) => Numbered { number: 3, place },
            Refusal::ParameterOutOfLimits(place) => Numbered { number: 4, place },
            Refusal::TooFewAggregations(place) => Numbered { number: 5, place },
            Refusal::JobWord(place) => Numbered { number: 6, place },
            Refusal::RandomnessLayout(place) => Numbered { number: 7, place },
            Refusal::RandomnessWord(place) => Numbered { number: 8, place },
            Refusal::TranscriptLayout(place) => Numbered { number: 9, place },
            Refusal::TranscriptWord(place) => Numbered { number: 10, place },
            Refusal::WitnessLayout(place) => Numbered { number: 11, place },
            Refusal::WitnessWord(place) => Numbered { number: 12, place },
            Refusal::WitnessNorm(place) => Numbered { number: 13, place },
            Refusal::DigitsOfT => Numbered {
                number: 14,
                place: 0,
            },
            Refusal::DigitsOfG => Numbered {
                number: 15,
                place: 0,
            },
            Refusal::DigitsOfH => Numbered {
                number: 16,
                place: 0,
            },
        }
    }
}
