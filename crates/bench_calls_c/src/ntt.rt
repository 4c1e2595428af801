// Inner products by transforms, exported for bench/ alone: n times the same pair, with both transforms made once, or anew for each term.
ghost use Rattle.std.specs.Prelude.{◌≡◌};
ghost use Rattle.bench_calls.specs.Repeated.{terms_of, repeated};

use ring_rq::rq::Rq;

#[unsafe(no_mangle)]
pub extern "C" fn ntt_inner_product(a: Rq, b: Rq, n: u32) -> Rq
    ensures { result.coeffs ≡ repeated (terms_of n) a.coeffs b.coeffs }
{
    bench_calls::ntt::ntt_inner_product(a, b, n)
}

#[unsafe(no_mangle)]
pub extern "C" fn fast_inner_product(a: Rq, b: Rq, n: u32) -> Rq
    ensures { result.coeffs ≡ repeated (terms_of n) a.coeffs b.coeffs }
{
    bench_calls::ntt::fast_inner_product(a, b, n)
}
