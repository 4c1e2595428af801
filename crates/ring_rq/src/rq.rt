// A ring element as 64 words, coefficient of X^0 first. No operation asks for canonical words, and each gives some, except that the conjugate keeps
// coefficient 0 as it is.
ghost use Rattle.std.specs.Prelude.{◌≡◌, ◌<◌, length};
ghost use Rattle.spec_leaves.specs.Norm.{norm};
ghost use Rattle.spec_leaves.specs.Ring.{element};
ghost use Rattle.spec_leaves.specs.Rq.{rzero, radd, rsub, rmul, rscale, rconj, conj_coeff};
ghost use Rattle.ring_rq.specs.Words.{AtMostQ};

use ring_rq_product::product;
use ring_zq::norms;
use ring_zq::zq::{Zq, lowered};
use spec_leaves::modulus;
use std::array;

#[repr(C)]
#[derive(Clone, Copy)]
pub struct Rq {
    pub coeffs: [u32; 64],
}

// Coefficient k of the conjugate.
fn conjugate_at(a: &[u32], k: usize) -> u32
    requires { (length a.now ≡ 64) × (k < 64) }
    ensures { result ≡ conj_coeff a.now k }
{
    if k == 0 {
        a[0]
    } else {
        Zq(a[Rq::DEGREE - k]).neg().0
    }
}

impl Rq {
    pub const DEGREE: usize = 64;

    pub fn zero() -> Rq
        ensures { result.coeffs ≡ rzero }
    {
        Rq {
            coeffs: [0u32; Rq::DEGREE],
        }
    }

    // Sum and difference differ in the operation alone: a function over both would take it as a closure, and each would still be one call of that.
    pub fn add(self, rhs: Rq) -> Rq
        ensures { result.coeffs ≡ radd self.coeffs rhs.coeffs }
    {
        let a = self.coeffs;
        let b = rhs.coeffs;
        Rq {
            coeffs: array::from_fn(|k| Zq(a[k]).add(Zq(b[k])).0),
        }
    }

    // The same element with words up to Q. Where Q is 2^32 − 1, every word is.
    pub fn settled(self) -> Rq
        ensures { (element result.coeffs ≡ element self.coeffs) × AtMostQ result.coeffs }
    {
        if modulus::LACK == 1 {
            return self;
        }
        let a = self.coeffs;
        Rq {
            coeffs: array::from_fn(|k| lowered(a[k])),
        }
    }

    pub fn sub(self, rhs: Rq) -> Rq
        ensures { result.coeffs ≡ rsub self.coeffs rhs.coeffs }
    {
        let a = self.coeffs;
        let b = rhs.coeffs;
        Rq {
            coeffs: array::from_fn(|k| Zq(a[k]).sub(Zq(b[k])).0),
        }
    }

    pub fn mul(self, rhs: Rq) -> Rq
        ensures { result.coeffs ≡ rmul self.coeffs rhs.coeffs }
    {
        Rq {
            coeffs: product::multiply(self.coeffs, rhs.coeffs),
        }
    }

    // The product with a number.
    pub fn scale(self, factor: Zq) -> Rq
        ensures { result.coeffs ≡ rscale self.coeffs factor.0 }
    {
        let a = self.coeffs;
        Rq {
            coeffs: array::from_fn(|k| Zq(a[k]).mul(factor).0),
        }
    }

    pub fn conjugate_automorphism(self) -> Rq
        ensures { result.coeffs ≡ rconj self.coeffs }
    {
        let a = self.coeffs;
        Rq {
            coeffs: array::from_fn(|k| conjugate_at(&a, k)),
        }
    }

    pub fn l2_norm_squared(self) -> u128
        ensures { result ≡ norm self.coeffs }
    {
        norms::norm_of(&self.coeffs, 0, Rq::DEGREE)
    }
}
