// Inner products by transforms, exported for bench/ alone: n times the same pair, with both transforms made once, or anew for each term.
ghost use Rattle.std.specs.Prelude.{◌≡◌, ◌≤◌};
ghost use Rattle.bench_calls.specs.Repeated.{terms_of, repeated};

use ntt_product::ntt_form;
use ntt_transform::table::Twiddles;
use ring_rq::rq::Rq;

// At most 64 terms.
pub fn terms(n: u32) -> u32
    ensures { (result ≡ terms_of n) × (result ≤ 64) }
{
    n.min(64)
}

// Both sides in NTT form. The next function makes the same with other steps: the bench measures one against the other.
pub fn with_ntt_form(a: [u32; 64], b: [u32; 64], n: u32) -> [u32; 64]
    requires { n ≤ 64 }
    ensures { result ≡ repeated n a b }
{
    let w = Twiddles::new();
    let x = ntt_form::transform(a, &w);
    let y = ntt_form::transform(b, &w);
    let mut sums = ntt_form::no_sums();
    for m in 0..n {
        sums = ntt_form::add_product(sums, x, y);
    }
    ntt_form::inverse(sums, &w)
}

// Nothing in NTT form.
pub fn without_ntt_form(a: [u32; 64], b: [u32; 64], n: u32) -> [u32; 64]
    requires { n ≤ 64 }
    ensures { result ≡ repeated n a b }
{
    let w = Twiddles::new();
    let mut sums = ntt_form::no_sums();
    for m in 0..n {
        let x = ntt_form::transform(a, &w);
        let y = ntt_form::transform(b, &w);
        sums = ntt_form::add_product(sums, x, y);
    }
    ntt_form::inverse(sums, &w)
}

pub fn ntt_inner_product(a: Rq, b: Rq, n: u32) -> Rq
    ensures { result.coeffs ≡ repeated (terms_of n) a.coeffs b.coeffs }
{
    Rq {
        coeffs: with_ntt_form(a.coeffs, b.coeffs, terms(n)),
    }
}

pub fn fast_inner_product(a: Rq, b: Rq, n: u32) -> Rq
    ensures { result.coeffs ≡ repeated (terms_of n) a.coeffs b.coeffs }
{
    Rq {
        coeffs: without_ntt_form(a.coeffs, b.coeffs, terms(n)),
    }
}
