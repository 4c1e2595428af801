// The two aggregations (core/aggregate.rs). The constraints' cells or vectors stand one constraint after the other, `width` elements each; element c of
// the result is weighed over the constraints' elements c.
#![tactic(auto)]

pub mod omega;

ghost use Rattle.std.specs.Prelude.{◌≡◌, ◌+◌, ◌*◌, ◌≤◌, length};
ghost use Rattle.math.specs.lists.Part.{splice};
ghost use Rattle.spec_leaves.specs.Ring.{words};
ghost use Rattle.ring_inner_product.specs.Run.{Room};
ghost use Rattle.core_aggregate_psi.specs.Grid.{Grid};
ghost use Rattle.core_aggregate.specs.Weighed.{weighed_words, φ''_words, Parts, Formed, formed, FormedRows, b''_words, Mixable, mixed, Aggregates, mixed_words};

use ring_inner_product;
use ring_inner_product::Strided;
use ring_rq::rq::Rq;
use ring_rq_matrix;
use ring_rq_matrix::triangles;

// a'' for each row of psi, one after the other into a region that is set to zero first.
pub fn a_double_prime(
    job: &[u32],
    at: usize,
    width: usize,
    count: usize,
    numbers: &[u32],
    row: usize,
    aggregations: usize,
    out: &mut [u32],
    to: usize,
)
    requires { Grid job.now at width count × (row + aggregations * count ≤ length numbers.now) × Room out.old to (aggregations * width) }
    ensures { out.new ≡ splice out.old to (weighed_words job.now at width count numbers.now row aggregations) }
{
    ring_words::clear_run(out, to, 64 * (aggregations * width));
    core_aggregate_psi::add_weighed_rows(
        job,
        at,
        width,
        count,
        numbers,
        row,
        aggregations,
        out,
        to,
    );
}

// φ'' for each k: a region of r vectors for each row of psi and of omega. The omega part of each vector is stored, and the psi part added.
pub fn phi_double_prime(
    job: &[u32],
    at: usize,
    r: usize,
    n: usize,
    count: usize,
    randomness: &[u32],
    pi_at: usize,
    psi_at: usize,
    omega_at: usize,
    aggregations: usize,
    out: &mut [u32],
    to: usize,
)
    requires { Parts job.now at r n count randomness.now pi_at psi_at omega_at aggregations out.old to }
    ensures { out.new ≡ splice out.old to (φ''_words job.now at r n count randomness.now pi_at psi_at omega_at aggregations) }
{
    omega::omega_all(randomness, pi_at, omega_at, r, n, aggregations, out, to);
    core_aggregate_psi::add_weighed_rows(
        job,
        at,
        r * n,
        count,
        randomness,
        psi_at,
        aggregations,
        out,
        to,
    );
}

// b'' for one k, of the triangles a''_k and g and the vectors φ''_k in the scratch and the witness's vectors.
pub fn form(
    scratch: &[u32],
    a_at: usize,
    g_at: usize,
    phi_at: usize,
    r: usize,
    n: usize,
    witness: &[u32],
    s_at: usize,
) -> Rq
    requires { Formed scratch.now a_at g_at phi_at r n witness.now s_at }
    ensures { result.coeffs ≡ words (formed scratch.now a_at g_at phi_at r n witness.now s_at) }
{
    let square = ring_rq_matrix::sum_of_products(scratch, a_at, scratch, g_at, r);
    let line = ring_inner_product::inner_product(scratch, phi_at, 64, witness, s_at, 64, r * n);
    square.add(line)
}

// b'' for so many k into a region after those that it is made of: a'' and φ'' stand one k after the other.
pub fn b_double_prime(
    scratch: &mut [u32],
    a_at: usize,
    g_at: usize,
    phi_at: usize,
    r: usize,
    n: usize,
    witness: &[u32],
    s_at: usize,
    count: usize,
    to: usize,
)
    requires { FormedRows scratch.old a_at g_at phi_at r n witness.now s_at count to }
    ensures { scratch.new ≡ splice scratch.old to (b''_words scratch.old a_at g_at phi_at r n witness.now s_at count) }
{
    let cells = triangles::cells(r);
    let width = r * n;
    let mut a = a_at;
    let mut phi = phi_at;
    for k in 0..count {
        let e = form(scratch, a, g_at, phi, r, n, witness, s_at);
        ring_words::store(scratch, to + 64 * k, e);
        a += 64 * cells;
        phi += 64 * width;
    }
}

// A run of the ring constraints' elements weighed by alpha and a run of aggregated ones weighed by beta, together.
pub fn mix(
    job: &[u32],
    constraints: Strided,
    weights: &[u32],
    alpha: usize,
    beta: usize,
    source: &[u32],
    aggregated: Strided,
) -> Rq
    requires { Mixable job.now constraints weights.now alpha beta source.now aggregated }
    ensures { result.coeffs ≡ words (mixed job.now constraints weights.now alpha beta source.now aggregated) }
{
    let first = ring_inner_product::inner_product(
        weights,
        alpha,
        64,
        job,
        constraints.at,
        constraints.step,
        constraints.count,
    );
    let second = ring_inner_product::inner_product(
        weights,
        beta,
        64,
        source,
        aggregated.at,
        aggregated.step,
        aggregated.count,
    );
    first.add(second)
}

// a or φ: each of `width` elements weighed over the ring constraints by alpha and over a region's aggregated ones by beta, into another region of the same
// scratch. The runs are those of the first elements.
pub fn aggregate(
    job: &[u32],
    constraints: Strided,
    weights: &[u32],
    alpha: usize,
    beta: usize,
    scratch: &mut [u32],
    aggregated: Strided,
    width: usize,
    to: usize,
)
    requires { Aggregates job.now constraints weights.now alpha beta scratch.old aggregated width to }
    ensures { scratch.new ≡ splice scratch.old to (mixed_words job.now constraints weights.now alpha beta scratch.old aggregated width) }
{
    for c in 0..width {
        let constraint = constraints.further(c);
        let one = aggregated.further(c);
        let e = mix(job, constraint, weights, alpha, beta, scratch, one);
        ring_words::store(scratch, to + 64 * c, e);
    }
}
