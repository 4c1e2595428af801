// "A record with the lent slice and a position reads the sections." The work is in `section_at` and `behind_at`, which take the slice and the position.
// Callers use `section_from`, whose parameters are plain, and go on behind the section that it gives.
#![tactic(auto)]

ghost use Rattle.std.specs.Prelude.{◌≡◌, length};
ghost use Rattle.layout_section_reader.specs.Read.{read_at, behind_at, read_by, behind_by, Inside};

use ring_zq::wide::wide_usize;

// A slice of sections, and the position of the next section's count.
#[derive(Clone, Copy)]
pub struct SectionReader<'a> {
    pub words: &'a [u32],
    pub position: usize,
}

// What stands at a position: three answers of its own, which no Option or Result has plainer names for.
#[derive(Clone, Copy)]
pub enum Read {
    // the place of a section's first word, and its count
    Section(usize, usize),
    // a count that passes the slice's end
    Short,
    // no count: the slice ends before the position or at it
    End,
}

// The section whose count stands at a position.
pub fn section_at(words: &[u32], position: usize) -> Read
    ensures { result ≡ read_at words.now position }
{
    let len = words.len();
    if position < len {
        let count = wide_usize(words[position]);
        if count < len - position {
            Read::Section(position + 1, count)
        } else {
            Read::Short
        }
    } else {
        Read::End
    }
}

// The position behind the section at a position, or that position where no section is read.
pub fn behind_at(words: &[u32], position: usize) -> usize
    ensures { result ≡ behind_at words.now position }
{
    match section_at(words, position) {
        Read::Section(place, count) => place + count,
        Read::Short => position,
        Read::End => position,
    }
}

impl<'a> SectionReader<'a> {
    // A reader at a position of a slice.
    pub fn new(words: &'a [u32], position: usize) -> SectionReader<'a>
        ensures { (result.words ≡ words.entry) × (result.position ≡ position) }
    {
        SectionReader { words, position }
    }

    // Reads the section at the reader's position and moves behind it. Where no section is read the position stays.
    pub fn section<'s>(&'s mut self) -> Read
        ensures { (result ≡ read_by self.old) × (self.new.words ≡ self.old.words) × (self.new.position ≡ behind_by self.old) }
    {
        let words = self.words;
        let position = self.position;
        self.position = behind_at(words, position);
        section_at(words, position)
    }
}

// What a reader at a position of a slice reads.
pub fn section_from(words: &[u32], position: usize) -> Read
    ensures { (result ≡ read_at words.now position) × (Inside position (length words.now) result) }
{
    let mut reader = SectionReader::new(words, position);
    reader.section()
}
