// The sections that a slice should have, and how many words they take.
ghost use Rattle.std.specs.Prelude.{◌≡◌, ◌<◌, ◌^◌, length};
ghost use Rattle.spec_protocol.specs.Layout as L;
ghost use Rattle.layout_sections.specs.Sections.{listed};

// A section of a slice: how many words it has, and the greatest that each may be.
#[derive(Clone, Copy)]
pub struct Section {
    pub count: usize,
    pub greatest: u32,
}

// The words that sections take, counts included.
pub fn span(sections: &[Section]) -> usize
    requires { L.span (listed sections.now) < 2 ^ 64 }
    ensures { result ≡ L.span (listed sections.now) }
{
    let mut sum = 0;
    for section in sections {
        sum += 1 + section.count;
    }
    sum
}

// Where the words of section m start.
pub fn start(sections: &[Section], m: usize) -> usize
    requires { (m < length sections.now) × (L.span (listed sections.now) < 2 ^ 64) }
    ensures { result ≡ L.start (listed sections.now) m }
{
    span(&sections[..m]) + 1
}
