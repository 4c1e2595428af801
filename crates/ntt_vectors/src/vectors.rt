// Vectors in NTT form in a lent slice (document 02, Item 7): 192 words an element, its values modulo the three primes.
// A slice is passed whole with the place of its run: contracts speak of places in the whole slice, and a struct of the two would be built anew at each call.
ghost use Rattle.std.specs.Prelude.{◌≡◌, ◌+◌, ◌*◌, ◌≤◌, ◌^◌, length};
ghost use Rattle.math.specs.lists.Table.{table};
ghost use Rattle.math.specs.lists.Part.{splice};
ghost use Rattle.spec_leaves.specs.Ring.{words};
ghost use Rattle.spec_protocol.specs.Formulas.{flat};
ghost use Rattle.ntt_vectors.specs.NttForm.{ntt_form, ntt_words, NttForm, SumsRoom, values_added, value_sums, Values, AllValues, ntt_dot, ntt_row, RowRoom};

use crate::sums::add_products;
use ntt_product::ntt_form;
use ntt_product::ntt_form::Sums;
use ntt_transform::table::Twiddles;
use ring_rq::rq::Rq;

// The values of an element stored from `at` on.
pub fn store_ntt_form(a: [u32; 64], w: &Twiddles, out: &mut [u32], at: usize)
    requires { at + 192 ≤ length out.old }
    ensures { out.new ≡ splice out.old at (ntt_form a) }
{
    let t = ntt_form::transform(a, w);
    let first = t.first;
    let second = t.second;
    let third = t.third;
    ring_words::store(out, at, Rq { coeffs: first });
    ring_words::store(out, at + 64, Rq { coeffs: second });
    ring_words::store(out, at + 128, Rq { coeffs: third });
}

// The values of n elements, one after the other.
pub fn to_ntt_form(from: &[u32], from_at: usize, n: usize, w: &Twiddles, out: &mut [u32], at: usize)
    requires { (from_at + 64 * n ≤ length from.now) × (at + 192 * n ≤ length out.old) }
    ensures out_after { out.new ≡ splice out.old at (ntt_words from.now from_at n) }
    ensures ntt_form { NttForm out.new at from.now from_at n }
{
    let mut i = from_at;
    let mut place = at;
    for m in 0..n {
        let a = ring_words::load(from, i).coeffs;
        store_ntt_form(a, w, out, place);
        i += 64;
        place += 192;
    }
}

// The products of 64 values added to the sums.
pub fn add_values(sums: &mut [u64], x: &[u32], x_at: usize, y: &[u32], y_at: usize)
    requires { (length sums.old ≡ 64) × (x_at + 64 ≤ length x.now) × (y_at + 64 ≤ length y.now) × SumsRoom sums.old x.now x_at y.now y_at }
    ensures { sums.new ≡ values_added sums.old x.now x_at y.now y_at }
{
    add_products::<64>(sums, 0, x, x_at, y, y_at);
}

// The sums of the products of n elements' values modulo one prime.
pub fn value_sums(x: &[u32], x_at: usize, y: &[u32], y_at: usize, n: usize) -> [u64; 64]
    requires { Values x.now x_at n × Values y.now y_at n × (n ≤ 64) }
    ensures { result ≡ value_sums x.now x_at y.now y_at n }
{
    let mut sums = [0u64; 64];
    let mut i = x_at;
    let mut j = y_at;
    for m in 0..n {
        add_values(&mut sums, x, i, y, j);
        i += 192;
        j += 192;
    }
    sums
}

// The inner product of n elements with n others, all in NTT form.
pub fn inner_product(x: &[u32], x_at: usize, y: &[u32], y_at: usize, n: usize, w: &Twiddles) -> Rq
    requires { AllValues x.now x_at n × AllValues y.now y_at n × (n ≤ 64) }
    ensures { result.coeffs ≡ words (ntt_dot x.now x_at y.now y_at n) }
{
    let first = value_sums(x, x_at, y, y_at, n);
    let second = value_sums(x, x_at + 64, y, y_at + 64, n);
    let third = value_sums(x, x_at + 128, y, y_at + 128, n);
    let sums = Sums {
        first,
        second,
        third,
    };
    Rq {
        coeffs: ntt_form::inverse(sums, w),
    }
}

// The inner products of a vector in NTT form with `count` vectors that the scratch holds so, stored after them.
pub fn row(
    v: &[u32],
    n: usize,
    count: usize,
    w: &Twiddles,
    scratch: &mut [u32],
    at: usize,
    out_at: usize,
)
    requires { AllValues v.now 0 n × AllValues scratch.old at (count * n) × (n ≤ 64) × (count ≤ 64) × RowRoom scratch.old at n count out_at }
    ensures { scratch.new ≡ splice scratch.old out_at (flat (table count (ntt_row v.now scratch.old at n))) }
{
    let mut place = at;
    let mut to = out_at;
    for k in 0..count {
        let e = inner_product(v, 0, scratch, place, n, w);
        ring_words::store(scratch, to, e);
        place += 192 * n;
        to += 64;
    }
}
