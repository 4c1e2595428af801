// Reduction modulo a prime 2^27 − delta without division: by 2^27 = delta, and Montgomery's of a product.
ghost use Rattle.std.specs.Prelude.{◌≡◌, ◌+◌, ◌*◌, ◌/◌, ◌%◌, ◌≤◌, ◌<◌, ◌^◌};
ghost use Rattle.ntt_layers.specs.Fold.{prime, fold, reduced, montgomery, Opposite};

// 2^27 and 2^32.
pub const RADIX: u64 = 134217728;

pub const WORD: u64 = 4294967296;

// A modulus 2^27 − delta, which need not be prime; a fold reads nothing else. specs/Fold calls it `prime`.
#[derive(Clone, Copy)]
pub struct PseudoMersenne {
    pub delta: u64,
    pub ghost small: { delta ≤ 2175 },
}

impl PseudoMersenne {
    // The part from bit 27 on times delta, and the part below: z less the upper part times the modulus.
    pub fn fold(self, z: u64) -> u64
        requires { z < 2 ^ 59 }
        ensures { result ≡ fold self.delta z }
    {
        z - (z / RADIX % WORD) * (RADIX - self.delta)
    }

    // The same of a word.
    pub fn fold_word(self, x: u32) -> u32
        ensures { result ≡ fold self.delta x }
    {
        x - x / 134217728 * (134217728 - self.delta as u32)
    }

    // The part from bit 32 on times 32·delta, and the part below. `% WORD` lets the compiler multiply words; 32 times the modulus fits one unless delta is 0.
    pub fn fold_sum(self, z: u64) -> u64
        ensures { (result ≡ z / 4294967296 * (32 * self.delta) + z % 4294967296) × (result < 2 ^ 59) }
    {
        if self.delta == 0 {
            return z % WORD;
        }
        z - (z / WORD) * (32 * (RADIX - self.delta) % WORD)
    }

    // Folded twice: below three times the modulus.
    pub fn reduce(self, z: u64) -> u64
        requires { z < 2 ^ 59 }
        ensures { (result ≡ reduced self.delta z) × (result ≤ 285600000) }
    {
        self.fold(self.fold(z))
    }

    // The remainder of a word below three times the modulus.
    pub fn rest(self, r: u32) -> u32
        requires { r ≤ 285600000 }
        ensures { result ≡ r % prime self.delta }
    {
        let p = 134217728 - self.delta as u32;
        if r < p {
            r
        } else if r < 2 * p {
            r - p
        } else {
            r - 2 * p
        }
    }

    // The remainder by the modulus.
    pub fn remainder(self, z: u64) -> u64
        requires { z < 2 ^ 59 }
        ensures { result ≡ z % prime self.delta }
    {
        u64::from(self.rest(self.reduce(z) as u32))
    }
}

// A prime 2^27 − delta, and minus its inverse modulo 2^32, by which 2^32 is divided out.
#[derive(Clone, Copy)]
pub struct Prime {
    pub delta: u64,
    pub opposite: u64,
    pub ghost small: { delta ≤ 2175 },
    pub ghost inverts: { Opposite delta opposite },
}

impl Prime {
    // 2^32 divided out (Montgomery's reduction), below three times the prime.
    pub fn montgomery(self, z: u64) -> u64
        requires { z < 2 ^ 59 }
        ensures { (result ≡ montgomery self.delta self.opposite z) × (result ≤ 285600000) }
    {
        let multiple = (z % WORD) * (self.opposite % WORD) % WORD;
        (z + multiple * ((RADIX - self.delta) % WORD)) / WORD
    }
}
