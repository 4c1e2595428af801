// Products of a constraint's elements with a weight, added up where b0 and b stand in a job.
ghost use Rattle.std.specs.Prelude.{◌≡◌, ◌+◌, ◌*◌, ◌%◌, ◌≤◌, ◌<◌, length, get_or};
ghost use Rattle.math.specs.lists.Sum.{Σ};
ghost use Rattle.math.specs.lists.Table.{table};
ghost use Rattle.math.specs.lists.Part.{splice};
ghost use Rattle.spec_leaves.specs.Zq.{Q, zadd};
ghost use Rattle.spec_leaves.specs.Rq.{coeff};
ghost use Rattle.spec_leaves.specs.Ring.{element};
ghost use Rattle.spec_protocol.specs.Views.{element_at};
ghost use Rattle.spec_protocol.specs.Formulas.{◌⊕◌, ◌⊗◌, flat};
ghost use Rattle.load_constraints.specs.Sums.{Placed, dot_at, plus, term};

use ring_rq::rq::Rq;
use ring_zq::zq::Zq;

// Q as a u64.
const MODULUS: u64 = Zq::Q as u64;

// Where the sums stand: l numbers from `b0_at` on, k elements from `b_at` on.
#[derive(Clone, Copy)]
pub struct Target {
    pub b0_at: usize,
    pub l: usize,
    pub b_at: usize,
    pub k: usize,
}

// The products of an element's coefficients with the words from `at` on, each reduced, added up.
fn dot(coeffs: [u32; 64], words: &[u32], at: usize) -> u32
    requires { at + 64 ≤ length words.now }
    ensures { result ≡ dot_at coeffs words.now at }
{
    let mut sum: u64 = 0;
    for k in 0..64 {
        sum += u64::from(coeffs[k]) * u64::from(words[at + k]) % MODULUS;
    }
    (sum % MODULUS) as u32
}

// To each of `count` numbers from `to` on: the product of coefficients with element `cell` of m, of constraint after constraint from `base` on.
fn constants(
    job: &mut [u32],
    base: usize,
    m: usize,
    cell: usize,
    to: usize,
    count: usize,
    coeffs: [u32; 64],
)
    requires { (base + 64 * (count * m) ≤ to) × (to + count ≤ length job.old) × (cell < m) × (count ≤ 64) × (m ≤ 1024) }
    ensures { job.new ≡ splice job.old to (table count (λ x. zadd (get_or job.old (to + x) 0) (dot_at coeffs job.old (base + 64 * (x * m + cell))))) }
{
    let mut at = base + 64 * cell;
    for x in 0..count {
        let product = dot(coeffs, job, at);
        job[to + x] = Zq(job[to + x]).add(Zq(product)).0;
        at += 64 * m;
    }
}

// To each of `count` elements from `to` on: the product of a weight with element `cell` of m, of constraint after constraint from `base` on.
fn products(
    job: &mut [u32],
    base: usize,
    m: usize,
    cell: usize,
    to: usize,
    count: usize,
    weight: Rq,
)
    requires { (base + 64 * (count * m) ≤ to) × (to + 64 * count ≤ length job.old) × (cell < m) × (count ≤ 64) × (m ≤ 1024) }
    ensures { job.new ≡ splice job.old to (flat (table count (λ k. element_at job.old to k ⊕ term job.old base m cell weight.coeffs k))) }
{
    let mut at = base + 64 * cell;
    let mut place = to;
    for k in 0..count {
        let sum = ring_words::load(job, place).add(ring_words::load(job, at).mul(weight));
        ring_words::store(job, place, sum);
        at += 64 * m;
        place += 64;
    }
}

// One term of every constraint: element `cell` of m, from `base0` and from `base` on, times a weight.
pub fn add_term(
    job: &mut [u32],
    t: Target,
    base0: usize,
    base: usize,
    m: usize,
    cell: usize,
    weight: Rq,
)
    requires { Placed job.old t base0 base m × (cell < m) }
    ensures { job.new ≡ plus job.old t (term job.old base0 m cell weight.coeffs) (term job.old base m cell weight.coeffs) }
{
    let conjugate = weight.conjugate_automorphism().coeffs;
    let b0_at = t.b0_at;
    let l = t.l;
    let b_at = t.b_at;
    let k = t.k;
    constants(job, base0, m, cell, b0_at, l, conjugate);
    products(job, base, m, cell, b_at, k, weight);
}
