// The words of a slice's sections, and the first that is out of its section's range.
ghost use Rattle.std.specs.Prelude.{◌≡◌, true, ℕ, ◌+◌, ◌≤◌, ◌<◌, length, get_or};
ghost use Rattle.spec_protocol.specs.Layout.{span, ranged};
ghost use Rattle.layout_sections.specs.Sections.{listed, of_found, Passed};

use crate::sections::Section;

// Whether the 256 words from a place on are at most the greatest. It looks at all of them, so it runs on several words at a time.
fn within(words: &[u32], at: usize, greatest: u32) -> bool
    requires { at + 256 ≤ length words.now }
    ensures { result ≡ true → (k : ℕ) → k < 256 → get_or words.now (at + k) 0 ≤ greatest }
{
    let mut fit = true;
    for word in &words[at..at + 256] {
        if greatest < *word {
            fit = false;
        }
    }
    fit
}

// How far the words from a place to an end are at most the greatest, in blocks of 256.
fn pass(words: &[u32], from: usize, end: usize, greatest: u32) -> usize
    requires { (from ≤ end) × (end ≤ length words.now) }
    ensures { Passed words.now from end greatest result }
{
    if greatest == 4294967295 {
        return end;
    }
    let mut at = from;
    while 256 <= end - at {
        if !within(words, at, greatest) {
            return at;
        }
        at += 256;
    }
    at
}

// Nested loops over sections and their words, left by a label at the first word above its section's greatest.
pub fn first_wrong(words: &[u32], place: usize, sections: &[Section]) -> Option<usize>
    requires { place + span (listed sections.now) ≤ length words.now }
    ensures { (number : ℕ) → of_found number result ≡ ranged number words.now place (listed sections.now) }
{
    let mut found = None;
    let mut at = place;
    'sections: for section in sections {
        let end = at + 1 + section.count;
        let passed = pass(words, at + 1, end, section.greatest);
        for k in passed..end {
            if section.greatest < words[k] {
                found = Some(k);
                break 'sections;
            }
        }
        at = end;
    }
    found
}
