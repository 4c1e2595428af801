// The work on slices that hold exactly the operands.
ghost use Rattle.std.specs.Prelude.{◌≡◌, Bool, length};
ghost use Rattle.math.specs.lists.Part.{splice};
ghost use Rattle.bench_calls.specs.Fits.{inner_product_fits, combination_fits, projection_fits, phi_fits, u1_fits};
ghost use Rattle.bench_calls.specs.Made.{inner_product_made, combination_made, projection_made, phi_made, u1_made};

use commitments_outer::outer_commitments;
use commitments_outer::outer_commitments::Digits;
use core_jl::projection;

// The inner product.
pub fn inner_product(x: &[u32], y: &[u32], n: usize, out: &mut [u32])
    requires { inner_product_fits (length x.now) (length y.now) (length out.old) n ≡ Bool.true }
    ensures { out.new ≡ splice out.old 0 (inner_product_made x.now y.now n) }
{
    ring_words::store(
        out,
        0,
        ring_inner_product::inner_product(x, 0, 64, y, 0, 64, n),
    );
}

// The linear combination.
pub fn combination(x: &[u32], factors: &[u32], n: usize, out: &mut [u32])
    requires { combination_fits (length x.now) (length factors.now) (length out.old) n ≡ Bool.true }
    ensures { out.new ≡ splice out.old 0 (combination_made x.now factors.now n) }
{
    ring_words::store(
        out,
        0,
        ring_inner_product::linear_combination(x, 0, 64, factors, 0, n),
    );
}

// The projection.
pub fn projection(pi: &[u32], s: &[u32], n: usize, r: usize, out: &mut [u32])
    requires { projection_fits (length pi.now) (length s.now) (length out.old) n r ≡ Bool.true }
    ensures { out.new ≡ splice out.old 0 (projection_made pi.now s.now n r) }
{
    projection::project_run(pi, 0, s, 0, n, 0, r, out, 0);
}

// φ''.
pub fn phi(
    phi: &[u32],
    randomness: &[u32],
    r: usize,
    n: usize,
    count: usize,
    number: usize,
    out: &mut [u32],
)
    requires { phi_fits (length phi.now) (length randomness.now) (length out.old) r n count number ≡ Bool.true }
    ensures { out.new ≡ splice out.old 0 (phi_made phi.now randomness.now r n count number) }
{
    let psi = r * 256 * (64 * n);
    let omega = psi + number * count;
    core_aggregate::phi_double_prime(
        phi, 0, r, n, count, randomness, 0, psi, omega, number, out, 0,
    );
}

// u1.
pub fn u1(
    matrices: &[u32],
    from: &[u32],
    rows: usize,
    t_cells: usize,
    t_parts: usize,
    g_cells: usize,
    g_parts: usize,
    base: u32,
    out: &mut [u32],
)
    requires { u1_fits (length matrices.now) (length from.now) (length out.old) rows t_cells t_parts g_cells g_parts base ≡ Bool.true }
    ensures { out.new ≡ splice out.old 0 (u1_made matrices.now from.now rows t_cells t_parts g_cells g_parts base) }
{
    let c_at = 64 * (rows * (t_cells * t_parts));
    let g_at = 64 * t_cells;
    let t = Digits {
        at: 0,
        cells: t_cells,
        parts: t_parts,
    };
    let g = Digits {
        at: g_at,
        cells: g_cells,
        parts: g_parts,
    };
    outer_commitments::compute_u1(matrices, 0, c_at, rows, from, t, g, base, out, 0);
}
