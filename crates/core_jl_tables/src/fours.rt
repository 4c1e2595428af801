// The omega part of φ'' of one vector for four k at once. Each projection word is read once for the four: rows are taken 16 at a time, and a column's
// four sums, one for each k, stand side by side.
ghost use Rattle.std.specs.Prelude.{◌≡◌, ◌+◌, ◌*◌, ◌<◌, ◌≤◌, length, replicate, slice_index};
ghost use Rattle.math.specs.lists.Table.{table};
ghost use Rattle.math.specs.lists.Part.{splice};
ghost use Rattle.spec_protocol.specs.Formulas.{flat};
ghost use Rattle.core_jl_transpose.specs.Omega.{omega_element};
ghost use Rattle.core_jl_tables.specs.Pairs.{biased};
ghost use Rattle.core_jl_tables.specs.Fours.{Summed, summed_element, spread};

use crate::{pairs, tables};
use ring_rq::rq::Rq;

// The 256 rows of n elements from `pi_at` on, each times its omega for each of four k, added to the sums of their columns. The sums
// are kept with 2^31 added, and are 0 before.
fn add_rows(randomness: &[u32], pi_at: usize, n: usize, omega_at: usize, sums: &mut [u32])
    requires { (pi_at + 256 * (64 * n) ≤ length randomness.now) × (omega_at + 1024 ≤ length randomness.now) × (sums.old ≡ replicate 16384 2147483648) × (n ≤ 64) }
    ensures { (length sums.new ≡ 16384) × Summed randomness.now pi_at omega_at (64 * n) 256 sums.new }
{
    let width = 64 * n;
    let mut tables = [0u32; 4096];
    for g in 0..16 {
        pairs::fill_tables(randomness, omega_at + 16 * g, &mut tables);
        tables::add_columns(randomness, pi_at + 16 * g * width, n, &tables, sums);
    }
}

// Every fourth sum from `at` on, 64 of them, as an element's words.
fn column_element(sums: &[u32], at: usize) -> Rq
    requires { at + 253 ≤ length sums.now }
    ensures { result.coeffs ≡ table 64 (λ w. biased (slice_index sums.now (at + 4 * w))) }
{
    let mut coeffs = [0u32; Rq::DEGREE];
    for w in 0..Rq::DEGREE {
        coeffs[w] = tables::biased(sums[at + 4 * w]);
    }
    Rq { coeffs }
}

// The n elements of the sums for one k, reduced and conjugated, stored from `at` on.
fn store_part(sums: &[u32], k: usize, out: &mut [u32], at: usize, n: usize)
    requires { (length sums.now ≡ 16384) × (k < 4) × (at + 64 * n ≤ length out.old) × (n ≤ 64) }
    ensures { out.new ≡ splice out.old at (flat (table n (summed_element sums.now k))) }
{
    for m in 0..n {
        let reduced = column_element(sums, 256 * m + k).add(Rq::zero());
        ring_words::store(out, at + 64 * m, reduced.conjugate_automorphism());
    }
}

// The same for each of four k, `step` words apart.
fn store_parts(sums: &[u32], out: &mut [u32], at: usize, step: usize, n: usize)
    requires { (length sums.now ≡ 16384) × (at + 3 * step + 64 * n ≤ length out.old) × (n ≤ 64) }
    ensures { out.new ≡ spread out.old at step 4 (λ k. flat (table n (summed_element sums.now k))) }
{
    for k in 0..4 {
        store_part(sums, k, out, at + k * step, n);
    }
}

// The n elements Σ_j omega_j·conj(row j) for each of four k, `step` words apart. A vector's 256 rows of the projection start at `pi_at` and the first k's omega
// at `omega_at`.
pub fn omega_part(
    randomness: &[u32],
    pi_at: usize,
    omega_at: usize,
    n: usize,
    out: &mut [u32],
    out_at: usize,
    step: usize,
)
    requires { (pi_at + 256 * (64 * n) ≤ length randomness.now) × (omega_at + 1024 ≤ length randomness.now) × (out_at + 3 * step + 64 * n ≤ length out.old) × (n ≤ 64) }
    ensures { out.new ≡ spread out.old out_at step 4 (λ k. flat (table n (omega_element randomness.now pi_at (omega_at + k * 256) n))) }
{
    let mut sums = [2147483648u32; 16384];
    add_rows(randomness, pi_at, n, omega_at, &mut sums);
    store_parts(&sums, out, out_at, step, n);
}
