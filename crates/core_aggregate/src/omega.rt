// The omega part of φ'' (core/aggregate.rs) of all vectors and all k.
ghost use Rattle.std.specs.Prelude.{◌≡◌, ◌+◌, ◌*◌};
ghost use Rattle.math.specs.lists.Part.{splice};
ghost use Rattle.spec_protocol.specs.Formulas.{flat};
ghost use Rattle.core_aggregate.specs.Omega.{Projected, omega_vectors, omega_regions};

use core_jl_tables::fours;

// The omega part of φ'' for one k: vector after vector into a region.
pub fn omega_parts(
    randomness: &[u32],
    pi_at: usize,
    omega_at: usize,
    r: usize,
    n: usize,
    out: &mut [u32],
    to: usize,
)
    requires { Projected randomness.now pi_at r n omega_at 256 out.old to (r * n) }
    ensures { out.new ≡ splice out.old to (flat (omega_vectors randomness.now pi_at omega_at r n)) }
{
    let mut pi = pi_at;
    let mut place = to;
    for i in 0..r {
        core_jl_transpose::omega_part(randomness, pi, omega_at, n, out, place);
        pi += 16384 * n;
        place += 64 * n;
    }
}

// The omega part of φ'' for four k: vector after vector into four regions, one after the other.
pub fn omega_parts_of_four(
    randomness: &[u32],
    pi_at: usize,
    omega_at: usize,
    r: usize,
    n: usize,
    out: &mut [u32],
    to: usize,
)
    requires { Projected randomness.now pi_at r n omega_at 1024 out.old to (4 * (r * n)) }
    ensures { out.new ≡ splice out.old to (omega_regions randomness.now pi_at omega_at r n 4) }
{
    let step = 64 * (r * n);
    let mut pi = pi_at;
    let mut place = to;
    for i in 0..r {
        fours::omega_part(randomness, pi, omega_at, n, out, place, step);
        pi += 16384 * n;
        place += 64 * n;
    }
}

// The omega part of φ'' for so many k, one at a time: a region of r vectors for each k.
// One k and four k are made by different steps: a loop for both would take the step as a closure, whose contract is longer than the loop.
pub fn omega_ones(
    randomness: &[u32],
    pi_at: usize,
    omega_at: usize,
    r: usize,
    n: usize,
    aggregations: usize,
    out: &mut [u32],
    to: usize,
)
    requires { Projected randomness.now pi_at r n omega_at (aggregations * 256) out.old to (aggregations * (r * n)) }
    ensures { out.new ≡ splice out.old to (omega_regions randomness.now pi_at omega_at r n aggregations) }
{
    let width = r * n;
    let mut weights = omega_at;
    let mut place = to;
    for k in 0..aggregations {
        omega_parts(randomness, pi_at, weights, r, n, out, place);
        weights += 256;
        place += 64 * width;
    }
}

// The omega part of φ'' for each k, four at a time: the last four may overlap those before, which costs less than the rest one at a time. Fewer than
// four are made one at a time.
pub fn omega_all(
    randomness: &[u32],
    pi_at: usize,
    omega_at: usize,
    r: usize,
    n: usize,
    aggregations: usize,
    out: &mut [u32],
    to: usize,
)
    requires { Projected randomness.now pi_at r n omega_at (aggregations * 256) out.old to (aggregations * (r * n)) }
    ensures { out.new ≡ splice out.old to (omega_regions randomness.now pi_at omega_at r n aggregations) }
{
    if aggregations < 4 {
        omega_ones(randomness, pi_at, omega_at, r, n, aggregations, out, to);
        return;
    }
    let width = r * n;
    for g in 0..aggregations.div_ceil(4) {
        let first = (4 * g).min(aggregations - 4);
        let weights = omega_at + first * 256;
        let place = to + 64 * (first * width);
        omega_parts_of_four(randomness, pi_at, weights, r, n, out, place);
    }
}
