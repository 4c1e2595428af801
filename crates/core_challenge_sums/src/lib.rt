// Σ⟨φ_i,z⟩·c_i without φ (core/aggregate.rs, verifier.rs): of each constraint Σ c_i·φ_i is made first, and its inner product with z by transforms.
#![tactic(auto)]

ghost use Rattle.std.specs.Prelude.{◌≡◌, ◌+◌, ◌*◌, ◌≤◌, ◌<◌, length};
ghost use Rattle.spec_leaves.specs.Ring.{words};
ghost use Rattle.ntt_vectors.specs.NttForm.{AllValues};
ghost use Rattle.core_aggregate_ntt.specs.Terms.{term_added, terms_added, SumsSmall};
ghost use Rattle.core_challenge_sums.specs.Lines.{combined, combined_words, combined_line, weighed_lines, Combinable, Weighable, φ_lines, LinesRoom};

use core_aggregate_ntt::mix;
use ntt_transform::table::Twiddles;
use ntt_vectors::{sums, vectors};
use ring_challenge_products::{powers, products};
use ring_inner_product::Strided;
use ring_rq::rq::Rq;

// The product of element m of Σ c_i·x_i, of the powers of r challenges c_i and of r vectors x_i of n elements, and of z's in NTT form, added to 192 sums.
pub fn add_column(
    from: &[u32],
    at: usize,
    r: usize,
    n: usize,
    m: usize,
    powers: &[u32],
    z: &[u32],
    w: &Twiddles,
    sums: &mut [u64],
)
    requires { Combinable from.now at r n powers.now × (m < n) × AllValues z.now (192 * m) 1 × SumsSmall sums.old 1 }
    ensures { sums.new ≡ term_added sums.old z.now (192 * m) (words (combined from.now at r n powers.now m)) }
{
    let e = products::inner_product(powers, from, at + 64 * m, 64 * n, r).coeffs;
    mix::add_term(&e, 0, z, 192 * m, w, sums);
}

// Those of all n elements.
pub fn add_columns(
    from: &[u32],
    at: usize,
    r: usize,
    n: usize,
    powers: &[u32],
    z: &[u32],
    w: &Twiddles,
    sums: &mut [u64],
)
    requires { Combinable from.now at r n powers.now × AllValues z.now 0 n × SumsSmall sums.old n }
    ensures { sums.new ≡ terms_added sums.old z.now 0 (combined_words from.now at r n powers.now) 0 64 n }
{
    for m in 0..n {
        add_column(from, at, r, n, m, powers, z, w, sums);
    }
}

// ⟨z, Σ c_i·x_i⟩ of r vectors x_i of n elements, z in NTT form.
pub fn line(
    from: &[u32],
    at: usize,
    r: usize,
    n: usize,
    powers: &[u32],
    z: &[u32],
    w: &Twiddles,
) -> Rq
    requires { Combinable from.now at r n powers.now × AllValues z.now 0 n }
    ensures { result.coeffs ≡ words (combined_line from.now at r n powers.now z.now) }
{
    let mut sums = [0u64; 192];
    add_columns(from, at, r, n, powers, z, w, &mut sums);
    sums::inverse(&sums, 0, w)
}

// Those of the vectors of so many constraints, weighed: the constraints stand a step apart, and their weights one after the other.
pub fn weigh(
    from: &[u32],
    constraints: Strided,
    r: usize,
    n: usize,
    powers: &[u32],
    z: &[u32],
    weights: &[u32],
    weights_at: usize,
    w: &Twiddles,
) -> Rq
    requires { Weighable from.now constraints r n powers.now weights.now weights_at × AllValues z.now 0 n }
    ensures { result.coeffs ≡ words (weighed_lines from.now constraints r n powers.now z.now weights.now weights_at) }
{
    let step = constraints.step;
    let count = constraints.count;
    let mut total = Rq::zero();
    let mut at = constraints.at;
    let mut place = weights_at;
    for k in 0..count {
        let weighed = line(from, at, r, n, powers, z, w).mul(ring_words::load(weights, place));
        let next = total.add(weighed);
        total = next;
        at += step;
        place += 64;
    }
    total
}

// Σ⟨φ_i,z⟩·c_i of the φ that `core_aggregate_ntt::mix::aggregate` makes: alpha weighs the job's constraints, beta the scratch's; the c_i stand in the scratch.
pub fn sum_of_lines(
    job: &[u32],
    constraints: Strided,
    randomness: &[u32],
    alpha: usize,
    beta: usize,
    scratch: &[u32],
    aggregated: Strided,
    r: usize,
    n: usize,
    c_at: usize,
    transcript: &[u32],
    z_at: usize,
) -> Rq
    requires { LinesRoom job.now constraints randomness.now alpha beta scratch.now aggregated r n c_at transcript.now z_at }
    ensures { result.coeffs ≡ words (φ_lines job.now constraints randomness.now alpha beta scratch.now aggregated r n c_at transcript.now z_at) }
{
    let w = Twiddles::new();
    let mut z = [0u32; 12288];
    vectors::to_ntt_form(transcript, z_at, n, &w, &mut z, 0);
    let mut places = [0u32; 1024];
    powers::store(scratch, c_at, r, &mut places);
    let first = weigh(job, constraints, r, n, &places, &z, randomness, alpha, &w);
    let second = weigh(scratch, aggregated, r, n, &places, &z, randomness, beta, &w);
    first.add(second)
}
