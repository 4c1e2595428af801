// The three primes: 2^27 − 639, 2^27 − 2047 and 2^27 − 2175, and each as a modulus alone.
use ntt_layers::fold::{Prime, PseudoMersenne};

pub const FIRST: Prime = Prime {
    delta: 639,
    opposite: 3898195327,
};

pub const SECOND: Prime = Prime {
    delta: 2047,
    opposite: 130021375,
};

pub const THIRD: Prime = Prime {
    delta: 2175,
    opposite: 2442639231,
};

pub const FIRST_MODULUS: PseudoMersenne = PseudoMersenne { delta: FIRST.delta };

pub const SECOND_MODULUS: PseudoMersenne = PseudoMersenne {
    delta: SECOND.delta,
};

pub const THIRD_MODULUS: PseudoMersenne = PseudoMersenne { delta: THIRD.delta };
