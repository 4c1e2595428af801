// The fast ring product: the same answer as the plain product for every pair of words.
ghost use Rattle.std.specs.Prelude.{◌≡◌};
ghost use Rattle.spec_leaves.specs.Rq.{rmul};

use crate::ntt_form;
use ntt_transform::table::Twiddles;
use ring_rq::rq::Rq;

pub fn multiply(a: [u32; 64], b: [u32; 64]) -> [u32; 64]
    ensures { result ≡ rmul a b }
{
    let w = Twiddles::new();
    let x = ntt_form::transform(a, &w);
    let y = ntt_form::transform(b, &w);
    let sums = ntt_form::add_product(ntt_form::no_sums(), x, y);
    ntt_form::inverse(sums, &w)
}

pub fn mul(a: Rq, b: Rq) -> Rq
    ensures { result.coeffs ≡ rmul a.coeffs b.coeffs }
{
    let x = a.coeffs;
    let y = b.coeffs;
    Rq {
        coeffs: multiply(x, y),
    }
}
