// CRT: a number below the product of the three primes, from its remainders, modulo Q.
ghost use Rattle.std.specs.Prelude.{◌≡◌, ◌<◌};
ghost use Rattle.spec_leaves.specs.Zq.{Q};
ghost use Rattle.ntt_product.specs.Crt.{crt_of, crt_all_of, Remainders};

use ntt_transform::moduli::{SECOND_MODULUS, THIRD_MODULUS};
use ring_zq::zq::Zq;

// Q as a u64.
pub const MODULUS: u64 = Zq::Q as u64;

// The product of the first two primes modulo Q.
const PAIR: u64 = 18014038001972609 % MODULUS;

// Mixed radix: the digits in base 134217089 and 134215681, then the number modulo Q.
pub fn crt(first: u64, second: u64, third: u64) -> u64
    requires { (first < 134217089) × (second < 134215681) × (third < 134215553) }
    ensures { (result ≡ crt_of first second third) × (result < Q) }
{
    let middle = SECOND_MODULUS.remainder((second + 268431362 - first) * 36508953);
    let top = THIRD_MODULUS.remainder(
        (third + 268431106 - first) * 32067747 + (268431106 - middle) * 133166994,
    );
    (first + 134217089 * middle + PAIR * top) % MODULUS
}

// Entry by entry.
pub fn crt_all(first: [u32; 64], second: [u32; 64], third: [u32; 64]) -> [u32; 64]
    requires { Remainders first second third }
    ensures { result ≡ crt_all_of first second third }
{
    let mut out = [0u32; 64];
    for k in 0..64 {
        out[k] = crt(
            u64::from(first[k]),
            u64::from(second[k]),
            u64::from(third[k]),
        ) as u32;
    }
    out
}
