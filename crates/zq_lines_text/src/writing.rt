// Writing answers into a lent slice. Each call writes from the place `at` on, and gives the place after what it wrote.
// An `ArrayVec<u8, N>` in place of the two asks at each call that N bytes fit memory; that was tried, and did not close.
ghost use Rattle.std.specs.Prelude.{◌≡◌, ◌∷◌, [], ◌++◌, ◌+◌, ◌≤◌, ◌<◌, length, Some};
ghost use Rattle.spec_leaves.specs.Zq.{centre, Canonical};
ghost use Rattle.zq_lines_text.specs.Text.{decimal, signed};
ghost use Rattle.zq_lines_text.specs.Line.{text};
ghost use Rattle.zq_lines_text.specs.Reading.{answer_of, FirstCanonical};
ghost use Rattle.zq_lines_text.specs.Written.{Written};

use crate::reading::{State, parse};
use ring_zq::zq::Zq;
use spec_leaves::modulus;

// One byte.
fn put(out: &mut [u8], at: usize, b: u8) -> usize
    requires { at < length out.old }
    ensures { Written out.old at (b ∷ []) out.new result }
{
    out[at] = b;
    at + 1
}

// Some bytes. They are few, and one by one they take less time than a call that copies.
#[inline(always)]
fn put_bytes(out: &mut [u8], at: usize, bytes: &[u8]) -> usize
    requires { at + length bytes.now ≤ length out.old }
    ensures { Written out.old at bytes.now out.new result }
{
    for i in 0..bytes.len() {
        out[at + i] = bytes[i];
    }
    at + bytes.len()
}

// The digits of a number, most significant first. One digit is written without the buffer, which takes longer.
fn put_decimal(out: &mut [u8], at: usize, n: u32) -> usize
    requires { at + length (decimal n) ≤ length out.old }
    ensures { Written out.old at (decimal n) out.new result }
{
    if n < 10 {
        put(out, at, b'0' + n as u8)
    } else {
        let mut buffer = itoa::Buffer::new();
        put_bytes(out, at, buffer.format(n).as_bytes())
    }
}

// A number and a space.
fn put_word(out: &mut [u8], at: usize, n: u32) -> usize
    requires { at + 11 ≤ length out.old }
    ensures { Written out.old at (decimal n ++ (32 ∷ [])) out.new result }
{
    let end = put_decimal(out, at, n);
    put(out, end, b' ')
}

// The centre of a canonical value.
fn put_centre(out: &mut [u8], at: usize, a: Zq) -> usize
    requires canonical { Canonical a.0 }
    requires at_in_bounds { at + 11 ≤ length out.old }
    ensures { Written out.old at (signed (centre a.0)) out.new result }
{
    if modulus::HALF < a.0 {
        let mut buffer = itoa::Buffer::new();
        put_bytes(out, at, buffer.format(a.centered_mod()).as_bytes())
    } else {
        put_decimal(out, at, a.0)
    }
}

// Both words, their sum, their product and the first one's centre, one space apart.
fn put_pair(out: &mut [u8], at: usize, a: u32, b: u32) -> usize
    requires canonical { Canonical a }
    requires at_in_bounds { at + 55 ≤ length out.old }
    ensures { Written out.old at (text (Some (a, b))) out.new result }
{
    let sum = Zq(a).add(Zq(b));
    let product = Zq(a).mul(Zq(b));
    let second = put_word(out, at, a);
    let third = put_word(out, second, b);
    let fourth = put_word(out, third, sum.0);
    let fifth = put_word(out, fourth, product.0);
    put_centre(out, fifth, Zq(a))
}

// The answer to a line, without its line feed.
fn put_parsed(out: &mut [u8], at: usize, p: Option<(u32, u32)>) -> usize
    requires first_canonical { FirstCanonical p }
    requires at_in_bounds { at + 55 ≤ length out.old }
    ensures { Written out.old at (text p) out.new result }
{
    match p {
        Some((a, b)) => put_pair(out, at, a, b),
        None => put_bytes(out, at, b"refused"),
    }
}

// The answer to a line that ends here, and a line feed.
pub fn put_answer(out: &mut [u8], at: usize, s: State) -> usize
    requires { at + 56 ≤ length out.old }
    ensures { Written out.old at (answer_of s) out.new result }
{
    let end = put_parsed(out, at, parse(s));
    put(out, end, b'\n')
}
