// φ and b'' in one pass: each element of φ'' is transformed once, and its values are multiplied by beta's for φ and by the witness's for b''. The
// sums for b'', 192 for each k, are lent.
ghost use Rattle.std.specs.Prelude.{◌≡◌, ◌*◌, ◌≤◌, length};
ghost use Rattle.math.specs.lists.Table.{table};
ghost use Rattle.math.specs.lists.Part.{part, splice};
ghost use Rattle.spec_leaves.specs.Ring.{words};
ghost use Rattle.spec_protocol.specs.Formulas.{flat};
ghost use Rattle.ntt_vectors.specs.NttForm.{ntt_form};
ghost use Rattle.core_aggregate_ntt.specs.Terms.{term_added, run_added, SumsSmall, ntt_mixed, NttMixable};
ghost use Rattle.core_aggregate_ntt.specs.Forms.{form_added, run_formed, TermRoom, ColumnRoom, FormSmall, FormsSmall, FormsRoom, total};

use crate::mix;
use ntt_transform::table::Twiddles;
use ntt_vectors::{sums, vectors};
use ring_inner_product::Strided;
use ring_rq::rq::Rq;

// The product of a weight in NTT form and the element at a place added to 192 sums, and the element's with the values of s added to others from `form` on.
pub fn add_both(
    from: &[u32],
    at: usize,
    weights: &[u32],
    weight: usize,
    s: &[u32],
    w: &Twiddles,
    sums: &mut [u64],
    forms: &mut [u64],
    form: usize,
)
    requires { TermRoom from.now at weights.now weight s.now × SumsSmall sums.old 1 × FormSmall forms.old form }
    ensures sums_after { sums.new ≡ term_added sums.old weights.now weight (part from.now at 64) }
    ensures forms_after { forms.new ≡ splice forms.old form (form_added forms.old form (part from.now at 64) s.now) }
{
    let mut values = [0u32; 192];
    let e = ring_words::load(from, at).coeffs;
    vectors::store_ntt_form(e, w, &mut values, 0);
    sums::add_product(sums, 0, weights, weight, &values, 0);
    sums::add_product(forms, form, &values, 0, s, 0);
}

// Those of a run of elements, with weights in NTT form one after the other; each has sums of its own in `forms`.
pub fn add_column(
    from: &[u32],
    run: Strided,
    weights: &[u32],
    weights_at: usize,
    s: &[u32],
    w: &Twiddles,
    sums: &mut [u64],
    forms: &mut [u64],
)
    requires { ColumnRoom from.now run weights.now weights_at s.now × SumsSmall sums.old run.count × FormsSmall forms.old run.count }
    ensures sums_after { sums.new ≡ run_added sums.old weights.now weights_at from.now run }
    ensures forms_after { forms.new ≡ splice forms.old 0 (run_formed forms.old from.now run s.now) }
{
    let step = run.step;
    let count = run.count;
    let mut i = run.at;
    let mut weight = weights_at;
    for k in 0..count {
        add_both(from, i, weights, weight, s, w, sums, forms, 192 * k);
        i += step;
        weight += 192;
    }
}

// `core_aggregate_ntt::mix::mix`, with the terms of b'': the aggregated elements' products with the witness's element at a place.
pub fn mix_and_form(
    job: &[u32],
    constraints: Strided,
    scratch: &[u32],
    aggregated: Strided,
    weights: &[u32],
    witness: &[u32],
    s: usize,
    w: &Twiddles,
    forms: &mut [u64],
) -> Rq
    requires { NttMixable job.now constraints scratch.now aggregated weights.now × FormsRoom forms.old aggregated.count witness.now s }
    ensures coeffs_value { result.coeffs ≡ words (ntt_mixed job.now constraints scratch.now aggregated weights.now) }
    ensures forms_after { forms.new ≡ splice forms.old 0 (run_formed forms.old scratch.now aggregated (ntt_form (part witness.now s 64))) }
{
    let mut values = [0u32; 192];
    let e = ring_words::load(witness, s).coeffs;
    vectors::store_ntt_form(e, w, &mut values, 0);
    let mut sums = [0u64; 192];
    mix::add_terms(job, constraints, weights, 0, w, &mut sums);
    add_column(
        scratch,
        aggregated,
        weights,
        192 * constraints.count,
        &values,
        w,
        &mut sums,
        forms,
    );
    sums::inverse(&sums, 0, w)
}

// The inverse NTT of the sums of each k, added to the element k of the totals.
pub fn add_totals(forms: &[u64], count: usize, w: &Twiddles, totals: &mut [u32])
    requires { (192 * count ≤ length forms.now) × (64 * count ≤ length totals.old) }
    ensures { totals.new ≡ splice totals.old 0 (flat (table count (total totals.old forms.now))) }
{
    for k in 0..count {
        let e = sums::inverse(forms, 192 * k, w);
        let sum = ring_words::load(totals, 64 * k).add(e);
        ring_words::store(totals, 64 * k, sum);
    }
}
