// φ in NTT form: the weights alpha and beta are transformed once; of each element the constraints' terms are transformed, their products with the
// weights summed, and there is one inverse NTT.
ghost use Rattle.std.specs.Prelude.{◌≡◌, ◌+◌, ◌≤◌, ◌<◌, ◌^◌, length};
ghost use Rattle.math.specs.lists.Part.{part, splice};
ghost use Rattle.spec_leaves.specs.Ring.{words};
ghost use Rattle.ring_inner_product.specs.Run.{Within};
ghost use Rattle.ntt_vectors.specs.NttForm.{AllValues};
ghost use Rattle.core_aggregate.specs.Weighed.{Aggregates, mixed_words};
ghost use Rattle.core_aggregate_ntt.specs.Terms.{term_added, run_added, SumsSmall, ntt_mixed, NttMixable, ntt_mixed_words, MixRoom, Weights, WeightsRoom, NttWeights, ntt_faster};

use ntt_transform::table::Twiddles;
use ntt_vectors::{sums, vectors};
use ring_inner_product::Strided;
use ring_rq::rq::Rq;

// The product of a weight in NTT form and the element at a place, added to 192 sums.
pub fn add_term(
    from: &[u32],
    at: usize,
    weights: &[u32],
    weight: usize,
    w: &Twiddles,
    sums: &mut [u64],
)
    requires { (at + 64 ≤ length from.now) × AllValues weights.now weight 1 × SumsSmall sums.old 1 }
    ensures { sums.new ≡ term_added sums.old weights.now weight (part from.now at 64) }
{
    let mut values = [0u32; 192];
    let e = ring_words::load(from, at).coeffs;
    vectors::store_ntt_form(e, w, &mut values, 0);
    sums::add_product(sums, 0, weights, weight, &values, 0);
}

// Those of a run of elements, with weights in NTT form one after the other.
pub fn add_terms(
    from: &[u32],
    run: Strided,
    weights: &[u32],
    weights_at: usize,
    w: &Twiddles,
    sums: &mut [u64],
)
    requires { Within from.now run × AllValues weights.now weights_at run.count × SumsSmall sums.old run.count }
    ensures { sums.new ≡ run_added sums.old weights.now weights_at from.now run }
{
    let step = run.step;
    let count = run.count;
    let mut i = run.at;
    let mut weight = weights_at;
    for m in 0..count {
        add_term(from, i, weights, weight, w, sums);
        i += step;
        weight += 192;
    }
}

// One element: the terms of a run of the ring constraints' elements and of a run of the aggregated ones, whose weights are in NTT form one after the other.
pub fn mix(
    job: &[u32],
    constraints: Strided,
    scratch: &[u32],
    aggregated: Strided,
    weights: &[u32],
    w: &Twiddles,
) -> Rq
    requires { NttMixable job.now constraints scratch.now aggregated weights.now }
    ensures { result.coeffs ≡ words (ntt_mixed job.now constraints scratch.now aggregated weights.now) }
{
    let mut sums = [0u64; 192];
    add_terms(job, constraints, weights, 0, w, &mut sums);
    add_terms(
        scratch,
        aggregated,
        weights,
        192 * constraints.count,
        w,
        &mut sums,
    );
    sums::inverse(&sums, 0, w)
}

// All of `width` elements. The runs are those of the first.
pub fn mix_all(
    job: &[u32],
    constraints: Strided,
    scratch: &mut [u32],
    aggregated: Strided,
    width: usize,
    to: usize,
    weights: &[u32],
    w: &Twiddles,
)
    requires { MixRoom job.now constraints scratch.old aggregated width to weights.now }
    ensures { scratch.new ≡ splice scratch.old to (ntt_mixed_words job.now constraints scratch.old aggregated width weights.now) }
{
    for c in 0..width {
        let constraint = constraints.further(c);
        let one = aggregated.further(c);
        let e = mix(job, constraint, scratch, one, weights, w);
        ring_words::store(scratch, to + 64 * c, e);
    }
}

// Where so many weights from a place on begin; of none, the start of the slice.
fn first_of(at: usize, count: usize) -> usize
    ensures { (0 < count → result ≡ at) × (count ≡ 0 → result ≡ 0) }
{
    if count < 1 { 0 } else { at }
}

// The values of the weights alpha, and after them those of beta.
pub fn weights_to_ntt_form(
    weights: &[u32],
    alpha: usize,
    alphas: usize,
    beta: usize,
    betas: usize,
    w: &Twiddles,
    transformed: &mut [u32],
)
    requires { WeightsRoom weights.now alpha alphas beta betas transformed.old }
    ensures { NttWeights transformed.new weights.now alpha alphas beta betas }
{
    let first = first_of(alpha, alphas);
    let second = first_of(beta, betas);
    vectors::to_ntt_form(weights, first, alphas, w, transformed, 0);
    vectors::to_ntt_form(weights, second, betas, w, transformed, 192 * alphas);
}

// `core_aggregate::aggregate` with weights in NTT form.
pub fn aggregate_ntt(
    job: &[u32],
    constraints: Strided,
    weights: &[u32],
    alpha: usize,
    beta: usize,
    scratch: &mut [u32],
    aggregated: Strided,
    width: usize,
    to: usize,
)
    requires { Aggregates job.now constraints weights.now alpha beta scratch.old aggregated width to × Weights constraints.count aggregated.count }
    ensures { scratch.new ≡ splice scratch.old to (mixed_words job.now constraints weights.now alpha beta scratch.old aggregated width) }
{
    let w = Twiddles::new();
    let mut transformed = [0u32; 18432];
    weights_to_ntt_form(
        weights,
        alpha,
        constraints.count,
        beta,
        aggregated.count,
        &w,
        &mut transformed,
    );
    mix_all(
        job,
        constraints,
        scratch,
        aggregated,
        width,
        to,
        &transformed,
        &w,
    );
}

// From four terms and eight elements on the transforms cost less than plain products. There is room for 96 weights.
pub fn ntt_is_faster(width: usize, alphas: usize, betas: usize) -> bool
    requires { (alphas ≤ 2 ^ 18) × (betas ≤ 2 ^ 18) }
    ensures { result ≡ ntt_faster width alphas betas }
{
    let terms = alphas + betas;
    if terms < 4 {
        false
    } else if terms > 96 {
        false
    } else {
        8 <= width
    }
}

// a or φ as `core_aggregate::aggregate` makes them, by the way that costs less.
pub fn aggregate(
    job: &[u32],
    constraints: Strided,
    weights: &[u32],
    alpha: usize,
    beta: usize,
    scratch: &mut [u32],
    aggregated: Strided,
    width: usize,
    to: usize,
)
    requires { Aggregates job.now constraints weights.now alpha beta scratch.old aggregated width to }
    ensures { scratch.new ≡ splice scratch.old to (mixed_words job.now constraints weights.now alpha beta scratch.old aggregated width) }
{
    if ntt_is_faster(width, constraints.count, aggregated.count) {
        aggregate_ntt(
            job,
            constraints,
            weights,
            alpha,
            beta,
            scratch,
            aggregated,
            width,
            to,
        );
    } else {
        core_aggregate::aggregate(
            job,
            constraints,
            weights,
            alpha,
            beta,
            scratch,
            aggregated,
            width,
            to,
        );
    }
}
