// Buffers that are filled with a mark before a call, so that each word that it leaves alone is seen.

// The greatest word is at least Q: elements, numbers and counts are below Q, so no call writes it.
pub const MARK: u32 = 4294967295;

// Whether a buffer is zero to a length and has marks behind it.
pub fn zero_to(buffer: &[u32], length: usize) -> bool {
    match buffer.split_at_checked(length) {
        Some((zeros, rest)) => zeros.iter().all(|word| *word == 0) && untouched(rest),
        None => false,
    }
}

// Whether all words are marks.
fn untouched(words: &[u32]) -> bool {
    words.iter().all(|word| *word == MARK)
}

// Whether a buffer starts with a part of a length and has marks behind it.
pub fn starts_with(buffer: &[u32], part: &[u32], length: usize) -> bool {
    match buffer.strip_prefix(part) {
        Some(rest) => part.len() == length && untouched(rest),
        None => false,
    }
}
