// The counts of a slice's sections, and where the slice ends.
ghost use Rattle.std.specs.Prelude.{◌≡◌, ℕ, ◌+◌, ◌≤◌, length, IfOk};
ghost use Rattle.spec_protocol.specs.Layout.{span, counted, layout};
ghost use Rattle.layout_sections.specs.Sections.{listed, of_counted, of_found};

use crate::sections::Section;
use ring_zq::wide::wide_usize;

// Where sections that start at a place end, their counts being right; or else the place that is wrong.
pub fn count(words: &[u32], place: usize, sections: &[Section]) -> Result<usize, usize>
    requires { place ≤ length words.now }
    ensures by_index { (number : ℕ) → of_counted number result ≡ counted number words.now place (listed sections.now) }
    ensures ends_at { IfOk result (λ end. end ≡ place + span (listed sections.now)) }
{
    let len = words.len();
    let mut at = place;
    for section in sections {
        if at < len {
            if wide_usize(words[at]) != section.count {
                return Err(at);
            }
        }
        // the count is missing, or too few words follow it
        if len - at <= section.count {
            return Err(len);
        }
        at += 1 + section.count;
    }
    Ok(at)
}

// The first place at which the sections from a place on do not take the slice to its end.
pub fn first_wrong(words: &[u32], place: usize, sections: &[Section]) -> Option<usize>
    requires { place ≤ length words.now }
    ensures { (number : ℕ) → of_found number result ≡ layout number words.now place (listed sections.now) }
{
    match count(words, place, sections) {
        Err(at) => Some(at),
        Ok(end) => { if end < words.len() { Some(end) } else { None } }
    }
}
