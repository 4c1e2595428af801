// Division by one number many times: its reciprocal is taken once, and each division is a multiplication. By a power of two it is a shift.
ghost use Rattle.std.specs.Prelude.{◌≡◌, ◌/◌, ◌%◌, ◌^◌, ◌<◌};

// 2^32.
const RADIX: u64 = 4294967296;

// A quotient, and what the division leaves.
#[derive(Clone, Copy)]
pub struct Quotient {
    pub quotient: u32,
    pub rest: u32,
}

// 2^32 − 1 divided by the base, rounded down.
pub fn reciprocal(base: u32) -> u32
    requires { 1 < base }
    ensures { result ≡ 4294967295 / base }
{
    4294967295 / base
}

// The quotient and the rest of x by the base. The product with the reciprocal gives the quotient or one less.
pub fn divide(x: u32, base: u32, reciprocal: u32) -> Quotient
    requires { (1 < base) × (reciprocal ≡ 4294967295 / base) }
    ensures { (result.quotient ≡ x / base) × (result.rest ≡ x % base) }
{
    let near = x as u64 * reciprocal as u64 / RADIX;
    let quotient = near as u32;
    let rest = (x as u64 - near * base as u64) as u32;
    if base <= rest {
        Quotient {
            quotient: quotient + 1,
            rest: rest - base,
        }
    } else {
        Quotient { quotient, rest }
    }
}

// The quotient and the rest of x by the base 2^shift.
pub fn divide_by_shift(x: u32, base: u32, shift: u32) -> Quotient
    requires { (shift < 32) × (base ≡ 2 ^ shift) }
    ensures { (result.quotient ≡ x / base) × (result.rest ≡ x % base) }
{
    Quotient {
        quotient: x >> shift,
        rest: x & (base - 1),
    }
}
