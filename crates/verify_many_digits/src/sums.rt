// The inner products of one row with vectors in NTT form, one in each window that takes part, 64 elements of the row at a time.
ghost use Rattle.std.specs.Prelude.{◌≡◌, true, false, ◌+◌, ◌*◌, ◌≤◌, ◌<◌, length, get_or};
ghost use Rattle.ntt_vectors.specs.NttForm.{AllValues};
ghost use Rattle.verify_many_digits.specs.Sums.{Windowed, added_to, BlockAdded, RowSummed};

use ntt_transform::table::Twiddles;
use ntt_vectors::vectors;
use ring_rq::rq::Rq;

// A sum with the inner product of n elements in NTT form with those from `at` on, where it takes part.
fn add_product(
    values: &[u32],
    n: usize,
    pass: bool,
    w: &Twiddles,
    scratch: &[u32],
    at: usize,
    sum: Rq,
) -> Rq
    requires { AllValues values.now 0 n × (n ≤ 64) × (pass ≡ true → AllValues scratch.now at n) }
    ensures { pass ≡ true → result.coeffs ≡ added_to values.now n scratch.now at sum.coeffs }
{
    if pass {
        let product = vectors::inner_product(values, 0, scratch, at, n, w);
        return sum.add(product);
    }
    sum
}

// The sums of all windows, each with the inner product of n elements in NTT form with those from its place on.
fn add_block(
    values: &[u32],
    n: usize,
    count: usize,
    passes: [bool; 8],
    w: &Twiddles,
    scratch: &[u32],
    at: usize,
    need: usize,
    sums: [Rq; 8],
) -> [Rq; 8]
    requires { AllValues values.now 0 n × (n ≤ 64) × Windowed scratch.now count (λ m. get_or passes m false) at need n }
    ensures { BlockAdded values.now n scratch.now count (λ m. get_or passes m false) at need sums result }
{
    let mut out = sums;
    let mut place = at;
    for m in 0..count {
        let pass = passes[m];
        let sum = sums[m];
        let next = add_product(values, n, pass, w, scratch, place, sum);
        out[m] = next;
        place += need;
    }
    out
}

// So many of the elements that are left as are taken at once.
fn block(left: usize) -> usize
    requires { 0 < left }
    ensures { (0 < result) × (result ≤ left) × (result ≤ 64) }
{
    if left < 64 {
        return left;
    }
    64
}

// The inner products of the row of `width` elements from `row` on with those from `at` on in each window.
pub fn row_sums(
    job: &[u32],
    row: usize,
    width: usize,
    count: usize,
    passes: [bool; 8],
    w: &Twiddles,
    scratch: &[u32],
    at: usize,
    need: usize,
) -> [Rq; 8]
    requires { (row + 64 * width ≤ length job.now) × Windowed scratch.now count (λ m. get_or passes m false) at need width }
    ensures { RowSummed job.now row width scratch.now count (λ m. get_or passes m false) at need result }
{
    let mut values = [0u32; 12288];
    let mut sums = [Rq::zero(); 8];
    let mut done = 0;
    while done < width {
        let n = block(width - done);
        vectors::to_ntt_form(job, row + 64 * done, n, w, &mut values, 0);
        let next = add_block(
            &values,
            n,
            count,
            passes,
            w,
            scratch,
            at + 192 * done,
            need,
            sums,
        );
        sums = next;
        done += n;
    }
    sums
}
