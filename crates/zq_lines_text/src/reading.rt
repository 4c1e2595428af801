// Reading a line byte by byte.
ghost use Rattle.std.specs.Prelude.{◌≡◌, ◌≤◌, ◌<◌, IsTrue};
ghost use Rattle.zq_lines_text.specs.Text.{is_digit};
ghost use Rattle.zq_lines_text.specs.Line.{pair as Line·pair};
ghost use Rattle.zq_lines_text.specs.Reading.{start as Reading·start, pushed, extended, stepped, parsed, is_fresh, Small, Bounded};

use ring_zq::zq::Zq;

// A decimal word as far as it is read. That it is `Small` stays a clause: the words that specs/ makes, as `pushed`, have no room for the proof that an invariant asks.
#[derive(Clone, Copy)]
pub struct Word {
    pub value: u64,
    pub digits: u32,
}

// What is kept of a line: its first word so far; its first word's value, and its second word so far; or that it is refused whatever follows.
#[derive(Clone, Copy)]
pub enum State {
    First(Word),
    Second(u64, Word),
    Bad,
}

// Q as a u64.
const MODULUS: u64 = Zq::Q as u64;

// The state in which a line begins.
pub fn start() -> State
    ensures { result ≡ Reading·start }
{
    State::First(Word {
        value: 0,
        digits: 0,
    })
}

// A word with one more digit.
fn push(w: Word, b: u8) -> Word
    requires small { Small w }
    requires digits_bound { w.digits < 10 }
    requires b_value { IsTrue (is_digit b) }
    ensures { result ≡ pushed w b }
{
    Word {
        value: w.value * 10 + (b - b'0') as u64,
        digits: w.digits + 1,
    }
}

// A word with one more byte; none where the byte is no digit, or an eleventh.
fn extend(w: Word, b: u8) -> Option<Word>
    requires { Small w }
    ensures { result ≡ extended w b }
{
    if b.is_ascii_digit() && w.digits < 10 {
        Some(push(w, b))
    } else {
        None
    }
}

// One more byte of a first word: a space after a digit begins the second.
fn step_first(w: Word, b: u8) -> State
    requires { Small w }
    ensures { result ≡ stepped (State.First w) b }
{
    if b == b' ' {
        if w.digits == 0 {
            return State::Bad;
        }
        return State::Second(
            w.value,
            Word {
                value: 0,
                digits: 0,
            },
        );
    }
    match extend(w, b) {
        Some(longer) => State::First(longer),
        None => State::Bad,
    }
}

// One more byte of a second word.
fn step_second(a: u64, w: Word, b: u8) -> State
    requires { Small w }
    ensures { result ≡ stepped (State.Second a w) b }
{
    match extend(w, b) {
        Some(longer) => State::Second(a, longer),
        None => State::Bad,
    }
}

// The state after one more byte of the line.
pub fn step(s: State, b: u8) -> State
    requires { Bounded s }
    ensures { result ≡ stepped s b }
{
    match s {
        State::First(w) => step_first(w, b),
        State::Second(a, w) => step_second(a, w, b),
        State::Bad => State::Bad,
    }
}

// Two words, refused where one is at or above Q.
fn pair(a: u64, b: u64) -> Option<(u32, u32)>
    ensures { result ≡ Line·pair a b }
{
    if a < MODULUS && b < MODULUS {
        Some((a as u32, b as u32))
    } else {
        None
    }
}

// The numbers of a line, if it ends here; none where it is refused.
pub fn parse(s: State) -> Option<(u32, u32)>
    ensures { result ≡ parsed s }
{
    match s {
        State::First(_) => None,
        State::Second(a, w) => {
            if w.digits == 0 {
                None
            } else {
                pair(a, w.value)
            }
        }
        State::Bad => None,
    }
}

// Whether no byte of the line is read.
pub fn is_fresh(s: State) -> bool
    ensures { result ≡ is_fresh s }
{
    match s {
        State::First(w) => w.digits == 0,
        State::Second(..) | State::Bad => false,
    }
}
