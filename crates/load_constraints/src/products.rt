// To every element of b: the products of a constraint's elements with weights. The weights are in NTT form (document 02, Item 7), 32 at a time, and for
// those each constraint takes one inverse NTT.
ghost use Rattle.std.specs.Prelude.{◌≡◌, ◌+◌, ◌*◌, ◌≤◌, ◌<◌, length};
ghost use Rattle.math.specs.lists.Table.{table};
ghost use Rattle.math.specs.lists.Part.{splice};
ghost use Rattle.spec_leaves.specs.Ring.{words};
ghost use Rattle.ring_inner_product.specs.Run.{Run, run};
ghost use Rattle.spec_protocol.specs.Formulas.{flat};
ghost use Rattle.ntt_vectors.specs.NttForm.{AllValues};
ghost use Rattle.load_constraints.specs.Products.{ntt_line, Before, Canonical, with_line, with_terms};

use core_aggregate_ntt::mix;
use ntt_transform::table::Twiddles;
use ntt_vectors::{sums, vectors};
use ring_inner_product::Strided;
use ring_rq::rq::Rq;

// How many weights are transformed at a time.
const BLOCK: usize = 32;

// The inner product of n weights in NTT form with the elements from `at` on.
fn line(job: &[u32], at: usize, n: usize, transformed: &[u32], w: &Twiddles) -> Rq
    requires { Run job.now at 64 n × AllValues transformed.now 0 n × (n ≤ 64) }
    ensures { result.coeffs ≡ words (ntt_line job.now at n transformed.now) }
{
    let run = Strided {
        at,
        step: 64,
        count: n,
    };
    let mut sums = [0u64; 192];
    mix::add_terms(job, run, transformed, 0, w, &mut sums);
    sums::inverse(&sums, 0, w)
}

// To each of `count` elements from `to` on: the inner product of n weights in NTT form with elements `cell` and on of m, of constraint after constraint from `base` on.
fn add_ntt(
    job: &mut [u32],
    base: usize,
    m: usize,
    cell: usize,
    n: usize,
    to: usize,
    count: usize,
    transformed: &[u32],
    w: &Twiddles,
)
    requires { Before job.old base m to count × (cell + n ≤ m) × AllValues transformed.now 0 n × (n ≤ 64) }
    ensures { job.new ≡ splice job.old to (flat (table count (with_line job.old base m to cell n transformed.now))) }
{
    let mut at = base + 64 * cell;
    let mut place = to;
    for k in 0..count {
        let sum = ring_words::load(job, place).add(line(job, at, n, transformed, w));
        ring_words::store(job, place, sum);
        at += 64 * m;
        place += 64;
    }
}

// The same of n weights from `s_at` on.
fn add_block(
    job: &mut [u32],
    base: usize,
    m: usize,
    cell: usize,
    n: usize,
    to: usize,
    count: usize,
    s: &[u32],
    s_at: usize,
    w: &Twiddles,
)
    requires { Before job.old base m to count × (cell + n ≤ m) × (s_at + 64 * n ≤ length s.now) × (n ≤ 32) }
    ensures { job.new ≡ splice job.old to (flat (table count (with_terms job.old base m to cell n (run s.now s_at 64)))) }
{
    let mut transformed = [0u32; 192 * BLOCK];
    vectors::to_ntt_form(s, s_at, n, w, &mut transformed, 0);
    add_ntt(job, base, m, cell, n, to, count, &transformed, w);
}

// To each of `count` elements from `to` on: m products, of the elements of constraint after constraint from `base` on with the weights from `s_at` on.
pub fn add_products(
    job: &mut [u32],
    base: usize,
    m: usize,
    to: usize,
    count: usize,
    s: &[u32],
    s_at: usize,
)
    requires { Before job.old base m to count × Canonical job.old to count × (s_at + 64 * m ≤ length s.now) }
    ensures { job.new ≡ splice job.old to (flat (table count (with_terms job.old base m to 0 m (run s.now s_at 64)))) }
{
    let w = Twiddles::new();
    for b in 0..m.div_ceil(BLOCK) {
        let c = BLOCK * b;
        let n = (m - c).min(BLOCK);
        add_block(job, base, m, c, n, to, count, s, s_at + 64 * c, &w);
    }
}
