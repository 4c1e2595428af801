// An element of Z/Q. Document 01: "An element of Zq is never taken for a plain count."
ghost use Rattle.std.specs.Prelude.{◌≡◌, ◌+◌, ◌-◌, ◌*◌, ◌%◌, ◌<◌, cond, ◌==◌};
ghost use Rattle.spec_leaves.specs.Zq.{Q, Canonical, zadd, zsub, zneg, zmul, is_larger_than_half, centre, size};
ghost use Rattle.ring_zq.specs.Words.{lack, lowered};

use spec_leaves::modulus;
use spec_leaves::modulus::LACK;

// A word; canonical below Q. No operation asks for a canonical word, and each gives one.
#[derive(Clone, Copy)]
pub struct Zq(pub u32);

// 2^32.
const RADIX: u64 = 4294967296;

// Q as an i64.
const SIGNED_Q: i64 = Zq::Q as i64;

// A word modulo Q.
fn canonical(word: u32) -> Zq
    ensures { result.0 ≡ word % Q }
{
    if word < Zq::Q {
        Zq(word)
    } else {
        Zq(word - Zq::Q)
    }
}

// The negative of a word, not reduced: Q less it, or twice Q less it where it is above Q.
pub fn lack(word: u32) -> u32
    ensures { result ≡ lack word }
{
    if word <= Zq::Q {
        Zq::Q - word
    } else {
        Zq::Q - (word - Zq::Q)
    }
}

// A word less Q where it is above Q.
pub fn lowered(word: u32) -> u32
    ensures { result ≡ lowered word }
{
    if word <= Zq::Q { word } else { word - Zq::Q }
}

impl Zq {
    pub const Q: u32 = modulus::Q;

    pub const ZERO: Zq = Zq(0);

    pub const ONE: Zq = Zq(1);

    pub const TWO: Zq = Zq(2);

    pub const NEG_ONE: Zq = Zq(modulus::TOP);

    pub fn add(self, rhs: Zq) -> Zq
        ensures { result.0 ≡ zadd self.0 rhs.0 }
    {
        let term = lowered(rhs.0);
        let sum = std::num::wrapping_add_u32(self.0, term);
        // a carry counts what Q lacks of 2^32
        if sum < term {
            canonical(sum + LACK)
        } else {
            canonical(sum)
        }
    }

    pub fn sub(self, rhs: Zq) -> Zq
        ensures { result.0 ≡ zsub self.0 rhs.0 }
    {
        self.add(Zq(lack(rhs.0)))
    }

    pub fn neg(self) -> Zq
        ensures { result.0 ≡ zneg self.0 }
    {
        canonical(lack(self.0))
    }

    pub fn mul(self, rhs: Zq) -> Zq
        ensures { result.0 ≡ zmul self.0 rhs.0 }
    {
        let product = self.0 as u64 * rhs.0 as u64;
        if LACK == 1 {
            Zq((product % RADIX) as u32).add(Zq((product / RADIX) as u32))
        } else {
            Zq((product % (Zq::Q as u64)) as u32)
        }
    }

    // Port only: nothing calls it.
    pub fn is_zero(self) -> bool
        ensures { result ≡ (self.0 == 0) }
    {
        self.0 == 0
    }

    pub fn is_larger_than_half(self) -> bool
        ensures { result ≡ is_larger_than_half self.0 }
    {
        modulus::HALF < self.0
    }

    // The centre, as an i64.
    pub fn centered_mod(self) -> i64
        ensures { result ≡ centre self.0 }
    {
        let value = self.0 as i64;
        if self.is_larger_than_half() {
            value - SIGNED_Q
        } else {
            value
        }
    }

    // The size of the centre.
    pub fn size(self) -> u32
        ensures { result ≡ size self.0 }
    {
        if self.is_larger_than_half() {
            if self.0 < Zq::Q { Zq::Q - self.0 } else { 0 }
        } else {
            self.0
        }
    }
}
