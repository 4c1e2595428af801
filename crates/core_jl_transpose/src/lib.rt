// The omega part of φ'' (`calculate_agg_phi_double_prime` of core/aggregate.rs) of one vector for one k: row after row of the projection,
// omega is added to or taken from each column's sum; each finished element is conjugated once.
#![tactic(auto)]

ghost use Rattle.std.specs.Prelude.{◌≡◌, ◌+◌, ◌*◌, ◌≤◌, length};
ghost use Rattle.math.specs.lists.Table.{table};
ghost use Rattle.math.specs.lists.Part.{splice};
ghost use Rattle.spec_leaves.specs.Ring.{conj};
ghost use Rattle.spec_protocol.specs.Views.{element_at};
ghost use Rattle.spec_protocol.specs.Formulas.{flat};
ghost use Rattle.core_jl_transpose.specs.Omega.{carried, row_sums, rows_sums, omega_element};

use core_jl::projection;
use ring_rq::rq::Rq;
use ring_zq::zq::lowered;
use spec_leaves::modulus;

// The sum modulo Q as a word: less Q where it passes 32 bits.
pub fn carry_add(a: u32, b: u32) -> u32
    ensures { result ≡ carried a b }
{
    let term = lowered(b);
    let sum = a.wrapping_add(term);
    if sum < term { sum + modulus::LACK } else { sum }
}

// A row's entries times `value` added to `width` sums.
fn add_row(
    randomness: &[u32],
    row_at: usize,
    value: u32,
    out: &mut [u32],
    out_at: usize,
    width: usize,
)
    requires { (row_at + width ≤ length randomness.now) × (out_at + width ≤ length out.old) }
    ensures { out.new ≡ splice out.old out_at (row_sums randomness.now row_at value out.old out_at width) }
{
    for c in 0..width {
        let entry = projection::term(randomness[row_at + c], value);
        let place = out_at + c;
        out[place] = carry_add(out[place], entry);
    }
}

// The 256 rows from `pi_at` on, each times its omega, added to `width` sums.
fn add_rows(
    randomness: &[u32],
    pi_at: usize,
    omega_at: usize,
    out: &mut [u32],
    out_at: usize,
    width: usize,
)
    requires { (pi_at + 256 * width ≤ length randomness.now) × (omega_at + 256 ≤ length randomness.now) × (out_at + width ≤ length out.old) }
    ensures { out.new ≡ splice out.old out_at (rows_sums randomness.now pi_at omega_at out.old out_at width) }
{
    for j in 0..256 {
        let value = randomness[omega_at + j];
        add_row(randomness, pi_at + j * width, value, out, out_at, width);
    }
}

// Each of n elements reduced and conjugated where it stands.
fn conjugate_run(out: &mut [u32], at: usize, n: usize)
    requires { at + 64 * n ≤ length out.old }
    ensures { out.new ≡ splice out.old at (flat (table n (λ m. conj (element_at out.old at m)))) }
{
    for m in 0..n {
        let place = at + 64 * m;
        let reduced = ring_words::load(out, place).add(Rq::zero());
        ring_words::store(out, place, reduced.conjugate_automorphism());
    }
}

// The n elements Σ_j omega_j·conj(row j) stored from `out_at` on. A vector's 256 rows of the projection start at `pi_at` and a k's omega at `omega_at`.
pub fn omega_part(
    randomness: &[u32],
    pi_at: usize,
    omega_at: usize,
    n: usize,
    out: &mut [u32],
    out_at: usize,
)
    requires { (pi_at + 256 * (64 * n) ≤ length randomness.now) × (omega_at + 256 ≤ length randomness.now) × (out_at + 64 * n ≤ length out.old) }
    ensures { out.new ≡ splice out.old out_at (flat (table n (omega_element randomness.now pi_at omega_at n))) }
{
    let width = 64 * n;
    ring_words::clear_run(out, out_at, width);
    add_rows(randomness, pi_at, omega_at, out, out_at, width);
    conjugate_run(out, out_at, n);
}
