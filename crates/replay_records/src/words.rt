// Words in a record's bytes, four bytes each, least first.
ghost use Rattle.std.specs.Prelude.{◌<◌};

use ring_rq::rq::Rq;

// A record's body has at most this many words.
pub const MOST: usize = 4096;

// Word k, and 0 past the end: a record leaves out the zeros at its end.
pub fn at(body: &[u8], k: usize) -> u32 {
    if k >= MOST {
        return 0;
    }
    match body.get(4 * k..4 * k + 4) {
        Some([a, b, c, d]) => u32::from_le_bytes([*a, *b, *c, *d]),
        _ => 0,
    }
}

// Words k and k + 1 as one number.
pub fn at_64(body: &[u8], k: usize) -> u64
    requires { k < 4096 }
{
    u64::from(at(body, k)) + 4294967296 * u64::from(at(body, k + 1))
}

// Words k and k + 1 as the two's complement of a centre, which lies above −2^32.
pub fn at_centre(body: &[u8], k: usize) -> i64
    requires { k < 4096 }
{
    let low = i64::from(at(body, k));
    if at(body, k + 1) == 0 {
        low
    } else {
        low - 4294967296
    }
}

// Copies words from word k on; a slice is no longer than a record.
pub fn copy(body: &[u8], k: usize, words: &mut [u32])
    requires { k < 4096 }
{
    for j in 0..words.len().min(MOST) {
        words[j] = at(body, k + j);
    }
}

// Whether words are those from word k on; a slice is no longer than a record.
pub fn same(body: &[u8], k: usize, words: &[u32]) -> bool
    requires { k < 4096 }
{
    for j in 0..words.len() {
        if j >= MOST || words[j] != at(body, k + j) {
            return false;
        }
    }
    true
}

// The element of 64 words from word k on.
pub fn element(body: &[u8], k: usize) -> Rq
    requires { k < 4096 }
{
    let mut coeffs = [0u32; 64];
    copy(body, k, &mut coeffs);
    Rq { coeffs }
}
