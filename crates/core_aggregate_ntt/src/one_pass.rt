// φ and b'' in one pass over φ'': the elements of φ and the sums Σ⟨φ''_k,i, s_i⟩ of all k, of up to 512 elements to an inverse NTT; then b''_k, which has
// Σ a''_k,ij·g_ij too.
ghost use Rattle.std.specs.Prelude.{◌≡◌, ◌*◌, ◌≤◌, ◌<◌, ◌^◌, length};
ghost use Rattle.math.specs.lists.Table.{table};
ghost use Rattle.math.specs.lists.Part.{splice};
ghost use Rattle.spec_protocol.specs.Formulas.{flat};
ghost use Rattle.ntt_product.specs.NttForm.{most_products};
ghost use Rattle.core_aggregate_ntt.specs.Terms.{Weights};
ghost use Rattle.core_aggregate_ntt.specs.Pass.{PassRoom, φ_mixed, with_lines, HasLines, FormsRoom, formed_with, Passable, with_pass, one_pass_faster};

use crate::{forms, mix};
use core_aggregate;
use layout_regions::Regions;
use ntt_transform::table::Twiddles;
use ring_inner_product::Strided;
use ring_rq_matrix;
use ring_rq_matrix::triangles;

// n elements of φ into their region, and their terms of every k added to the totals. The runs are those of the first element.
pub fn mix_run(
    job: &[u32],
    constraints: Strided,
    scratch: &mut [u32],
    aggregated: Strided,
    to: usize,
    weights: &[u32],
    witness: &[u32],
    s_at: usize,
    n: usize,
    w: &Twiddles,
    totals: &mut [u32],
)
    requires { PassRoom job.now constraints scratch.old aggregated to weights.now witness.now s_at n totals.old × (n ≤ most_products) }
    ensures scratch_after { scratch.new ≡ splice scratch.old to (φ_mixed job.now constraints scratch.old aggregated weights.now n) }
    ensures totals_after { totals.new ≡ with_lines totals.old scratch.old aggregated witness.now s_at n }
{
    let count = aggregated.count;
    let mut forms = [0u64; 6144];
    for m in 0..n {
        let constraint = constraints.further(m);
        let one = aggregated.further(m);
        let e = forms::mix_and_form(
            job,
            constraint,
            scratch,
            one,
            weights,
            witness,
            s_at + 64 * m,
            w,
            &mut forms,
        );
        ring_words::store(scratch, to + 64 * m, e);
    }
    forms::add_totals(&forms, count, w, totals);
}

// b'' of the triangles a''_k and g in the scratch and of the totals.
pub fn store_forms(
    scratch: &mut [u32],
    a_at: usize,
    g_at: usize,
    r: usize,
    totals: &[u32],
    count: usize,
    to: usize,
)
    requires { FormsRoom scratch.old a_at g_at r totals.now count to }
    ensures { scratch.new ≡ splice scratch.old to (flat (table count (formed_with scratch.old a_at g_at r totals.now))) }
{
    let cells = triangles::cells(r);
    let mut a = a_at;
    for k in 0..count {
        let square = ring_rq_matrix::sum_of_products(scratch, a, scratch, g_at, r);
        let sum = square.add(ring_words::load(totals, 64 * k));
        ring_words::store(scratch, to + 64 * k, sum);
        a += 64 * cells;
    }
}

// How many elements of φ'' one inverse NTT takes at most.
const BLOCK: usize = 512;

// All of `width` elements.
pub fn mix_runs(
    job: &[u32],
    constraints: Strided,
    scratch: &mut [u32],
    aggregated: Strided,
    to: usize,
    weights: &[u32],
    witness: &[u32],
    s_at: usize,
    width: usize,
    w: &Twiddles,
    totals: &mut [u32],
)
    requires { PassRoom job.now constraints scratch.old aggregated to weights.now witness.now s_at width totals.old }
    ensures scratch_after { scratch.new ≡ splice scratch.old to (φ_mixed job.now constraints scratch.old aggregated weights.now width) }
    ensures has_lines { HasLines totals.new totals.old scratch.old aggregated witness.now s_at width }
    ensures totals_len_unchanged { length totals.new ≡ length totals.old }
{
    for b in 0..width.div_ceil(BLOCK) {
        let c = BLOCK * b;
        let n = (width - c).min(BLOCK);
        let constraint = constraints.further(c);
        let one = aggregated.further(c);
        mix_run(
            job,
            constraint,
            scratch,
            one,
            to + 64 * c,
            weights,
            witness,
            s_at + 64 * c,
            n,
            w,
            totals,
        );
    }
}

// φ with weights in NTT form, and b'' with it where it is asked for. Not inlined: the table of twiddles is made before its buffers lie on the stack.
#[inline(never)]
fn phi_and_b_with(
    job: &[u32],
    constraints: Strided,
    weights: &[u32],
    alpha: usize,
    beta: usize,
    scratch: &mut [u32],
    regions: Regions,
    count: usize,
    r: usize,
    n: usize,
    witness: &[u32],
    s: usize,
    with_b: bool,
    w: &Twiddles,
)
    requires { Passable job.now constraints weights.now alpha beta scratch.old regions count r n witness.now s × Weights constraints.count count × (count ≤ 32) }
    ensures { scratch.new ≡ with_pass with_b job.now constraints weights.now alpha beta scratch.old regions count r n witness.now s }
{
    let width = r * n;
    let step = 64 * width;
    let aggregated = Strided {
        at: regions.phi2,
        step,
        count,
    };
    let mut transformed = [0u32; 18432];
    mix::weights_to_ntt_form(
        weights,
        alpha,
        constraints.count,
        beta,
        count,
        w,
        &mut transformed,
    );
    if with_b {
        let mut totals = [0u32; 2048];
        mix_runs(
            job,
            constraints,
            scratch,
            aggregated,
            regions.phi,
            &transformed,
            witness,
            s,
            width,
            w,
            &mut totals,
        );
        store_forms(
            scratch, regions.a2, regions.g, r, &totals, count, regions.b2,
        );
    } else {
        mix::mix_all(
            job,
            constraints,
            scratch,
            aggregated,
            width,
            regions.phi,
            &transformed,
            w,
        );
    }
}

// The same with a table of twiddles of its own.
pub fn phi_and_b_ntt(
    job: &[u32],
    constraints: Strided,
    weights: &[u32],
    alpha: usize,
    beta: usize,
    scratch: &mut [u32],
    regions: Regions,
    count: usize,
    r: usize,
    n: usize,
    witness: &[u32],
    s: usize,
    with_b: bool,
)
    requires { Passable job.now constraints weights.now alpha beta scratch.old regions count r n witness.now s × Weights constraints.count count × (count ≤ 32) }
    ensures { scratch.new ≡ with_pass with_b job.now constraints weights.now alpha beta scratch.old regions count r n witness.now s }
{
    let w = Twiddles::new();
    phi_and_b_with(
        job,
        constraints,
        weights,
        alpha,
        beta,
        scratch,
        regions,
        count,
        r,
        n,
        witness,
        s,
        with_b,
        &w,
    );
}

// The one pass is chosen where weights in NTT form are, of up to 32 k.
pub fn one_pass_is_faster(width: usize, alphas: usize, betas: usize) -> bool
    requires { (alphas ≤ 2 ^ 18) × (betas ≤ 2 ^ 18) }
    ensures { result ≡ one_pass_faster width alphas betas }
{
    if betas > 32 {
        false
    } else {
        mix::ntt_is_faster(width, alphas, betas)
    }
}

// φ as `core_aggregate::aggregate` makes it of the ring constraints and the φ'' of so many k, and then, where it is asked for, b'' as
// `core_aggregate::b_double_prime` does, by the way that costs less.
pub fn phi_and_b(
    job: &[u32],
    constraints: Strided,
    weights: &[u32],
    alpha: usize,
    beta: usize,
    scratch: &mut [u32],
    regions: Regions,
    count: usize,
    r: usize,
    n: usize,
    witness: &[u32],
    s: usize,
    with_b: bool,
)
    requires { Passable job.now constraints weights.now alpha beta scratch.old regions count r n witness.now s }
    ensures { scratch.new ≡ with_pass with_b job.now constraints weights.now alpha beta scratch.old regions count r n witness.now s }
{
    let width = r * n;
    if one_pass_is_faster(width, constraints.count, count) {
        phi_and_b_ntt(
            job,
            constraints,
            weights,
            alpha,
            beta,
            scratch,
            regions,
            count,
            r,
            n,
            witness,
            s,
            with_b,
        );
    } else {
        let step = 64 * width;
        let aggregated = Strided {
            at: regions.phi2,
            step,
            count,
        };
        core_aggregate::aggregate(
            job,
            constraints,
            weights,
            alpha,
            beta,
            scratch,
            aggregated,
            width,
            regions.phi,
        );
        if with_b {
            core_aggregate::b_double_prime(
                scratch,
                regions.a2,
                regions.g,
                regions.phi2,
                r,
                n,
                witness,
                s,
                count,
                regions.b2,
            );
        }
    }
}
