// The digits of one number (`Zq::decompose` of ring/zq.rs).
ghost use Rattle.std.specs.Prelude.{◌≡◌, ◌+◌, ◌-◌, ◌/◌, ◌<◌, ◌≤◌, ltb, replicate, if◌then◌else◌, nat_lt};
ghost use Rattle.std.specs.Bool.{xor};
ghost use Rattle.spec_leaves.specs.Zq.{is_larger_than_half, size};
ghost use Rattle.spec_leaves.specs.Digits.{rem_below, rem_size, next_size, signed, decomposed};

use crate::zq::Zq;
use spec_leaves::answers::Decomposed;

// The size of a remainder, which is below zero where it is above half the base.
fn rem_size(base: u32, rem: u32) -> u32
    requires { rem < base }
    ensures { (result ≡ (if ltb (base / 2) rem then base - rem else rem)) × (result ≤ base / 2) }
{
    if base / 2 < rem { base - rem } else { rem }
}

// The digit that a remainder gives, with the value's sign. Written so that it runs on several at a time.
pub fn digit_of(negative: bool, base: u32, rem: u32) -> u32
    requires { rem < base }
    ensures { result ≡ signed (xor negative (nat_lt (base / 2) rem)) (if ltb (base / 2) rem then base - rem else rem) }
{
    let size = rem_size(base, rem);
    if size == 0 {
        return 0;
    }
    let below = base / 2 < rem;
    if negative != below {
        Zq::Q - size
    } else {
        size
    }
}

// The size that goes on after a digit is taken, from the quotient and the remainder.
pub fn next_of(base: u32, quotient: u32, rem: u32) -> u32
    requires { quotient < 4294967295 }
    ensures { result ≡ (if ltb (base / 2) rem then quotient + 1 else quotient) }
{
    if base / 2 < rem {
        quotient + 1
    } else {
        quotient
    }
}

// The digit that a size gives, with the value's sign.
pub fn digit(negative: bool, base: u32, size: u32) -> u32
    requires { 0 < base }
    ensures { result ≡ signed (xor negative (rem_below base size)) (rem_size base size) }
{
    digit_of(negative, base, size % base)
}

// The size that goes on after a digit is taken.
pub fn next_size(base: u32, size: u32) -> u32
    requires { 1 < base }
    ensures { result ≡ next_size base size }
{
    next_of(base, size / base, size % base)
}

// The digits in 32 places, lowest first, those past the parts zero, and the size left over.
// Base and parts stay two numbers: one base goes with several counts of parts in the parameters, so a type of both would be built at each call.
pub fn decompose(value: Zq, base: u32, parts: usize) -> Decomposed
    requires { (1 < base) × (parts ≤ 32) }
    ensures { result ≡ decomposed base parts value.0 }
{
    let negative = value.is_larger_than_half();
    let mut size = value.size();
    let mut places = [0u32; 32];
    for k in 0..parts {
        places[k] = digit(negative, base, size);
        size = next_size(base, size);
    }
    Decomposed {
        digits: places,
        left: size,
    }
}
