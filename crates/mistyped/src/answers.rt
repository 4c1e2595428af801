// What the call answers.
ghost use Rattle.std.specs.Prelude.{◌≡◌};
ghost use Rattle.spec_leaves.specs.Answer.{refused as refusal, of_refusal};
ghost use Rattle.mistyped.specs.Told.{mistyped_answer, counted_answer};

use api_answers::numbers::Numbered;
use spec_leaves::answers::Refusal;

// A refusal's number and place, or 0 and 0 with the number of entries in the list.
#[repr(C)]
#[derive(Clone, Copy)]
pub struct MistypedAnswer {
    pub number: u32,
    pub place: u64,
    pub entries: u64,
}

// A number and a place alone.
pub fn refused(number: u32, place: usize) -> MistypedAnswer
    ensures { result ≡ mistyped_answer (refusal number place) 0 }
{
    MistypedAnswer {
        number,
        place: place as u64,
        entries: 0,
    }
}

impl From<Refusal> for MistypedAnswer {
    ghost from_gives = { λ refusal answer. answer ≡ mistyped_answer (of_refusal refusal) 0 };

    fn from(refusal: Refusal) -> MistypedAnswer {
        let found = Numbered::from(refusal);
        refused(found.number, found.place)
    }
}

// How many entries there are: "33 where the list would be empty".
pub fn counted(entries: usize) -> MistypedAnswer
    ensures { result ≡ counted_answer entries }
{
    if entries == 0 {
        return refused(33, 0);
    }
    MistypedAnswer {
        number: 0,
        place: 0,
        entries: entries as u64,
    }
}
