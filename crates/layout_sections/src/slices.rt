// A slice against its sections: its whole layout, then its words.
ghost use Rattle.std.specs.Prelude.{◌≡◌, ℕ, ◌≤◌, length};
ghost use Rattle.spec_leaves.specs.Answer.{◌then◌};
ghost use Rattle.spec_protocol.specs.Layout.{layout, ranged};
ghost use Rattle.layout_sections.specs.Sections.{listed, of_examined};

use crate::sections::Section;
use crate::{counts, ranges};

// What is wrong with a slice: its layout, or a word out of range. The number held is the place.
#[derive(Clone, Copy)]
pub enum SliceError {
    Layout(usize),
    Word(usize),
}

// "Apart from section one, a slice's layout is tested whole before its words."
pub fn examine(words: &[u32], place: usize, sections: &[Section]) -> Result<(), SliceError>
    requires { place ≤ length words.now }
    ensures { (a b : ℕ) → of_examined a b result ≡ layout a words.now place (listed sections.now) then ranged b words.now place (listed sections.now) }
{
    if let Some(at) = counts::first_wrong(words, place, sections) {
        return Err(SliceError::Layout(at));
    }
    match ranges::first_wrong(words, place, sections) {
        Some(at) => Err(SliceError::Word(at)),
        None => Ok(()),
    }
}
