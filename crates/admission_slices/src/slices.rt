// The slices that a call is lent, each tested against its sections.
ghost use Rattle.std.specs.Prelude.{◌≡◌, ◌≤◌, length};
ghost use Rattle.spec_leaves.specs.Answer.{of_refusal, of_result, ◌then◌};
ghost use Rattle.spec_protocol.specs.Layout.{layout, ranged};
ghost use Rattle.layout_sections.specs.Sections.{listed, of_slice_error};
ghost use Rattle.admission_slices.specs.Admission.{layout_number, word_number};

use layout_sections::sections::Section;
use layout_sections::slices;
use layout_sections::slices::SliceError;
use spec_leaves::answers::Refusal;

// The slices of words that the calls read.
#[derive(Clone, Copy)]
pub enum Slice {
    Job,
    Randomness,
    Transcript,
    Witness,
}

// Why a slice is refused, by what is wrong with it.
fn refusal_of(slice: Slice, error: SliceError) -> Refusal
    ensures { of_refusal result ≡ of_slice_error (layout_number slice) (word_number slice) error }
{
    match error {
        SliceError::Layout(place) => match slice {
            Slice::Job => Refusal::JobLayout(place),
            Slice::Randomness => Refusal::RandomnessLayout(place),
            Slice::Transcript => Refusal::TranscriptLayout(place),
            Slice::Witness => Refusal::WitnessLayout(place),
        },
        SliceError::Word(place) => match slice {
            Slice::Job => Refusal::JobWord(place),
            Slice::Randomness => Refusal::RandomnessWord(place),
            Slice::Transcript => Refusal::TranscriptWord(place),
            Slice::Witness => Refusal::WitnessWord(place),
        },
    }
}

// "3, 6"; "7, 8"; "9, 10"; "11, 12": a slice's sections from a place on, its whole layout before its words.
pub fn check(slice: Slice, words: &[u32], place: usize, sections: &[Section]) -> Result<(), Refusal>
    requires { place ≤ length words.now }
    ensures { of_result result ≡ layout (layout_number slice) words.now place (listed sections.now) then ranged (word_number slice) words.now place (listed sections.now) }
{
    match slices::examine(words, place, sections) {
        Ok(()) => Ok(()),
        Err(error) => Err(refusal_of(slice, error)),
    }
}
