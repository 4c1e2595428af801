// The calls. Each answers whether its arguments fit, and works where they do.
ghost use Rattle.std.specs.Prelude.{◌≡◌, length};
ghost use Rattle.bench_calls.specs.Fits.{inner_product_fits, combination_fits, projection_fits, phi_fits, u1_fits};
ghost use Rattle.bench_calls.specs.Made.{left, inner_product_made, combination_made, projection_made, phi_made, u1_made};

use crate::{fits, work};

// The inner product of two vectors of n elements.
pub fn slice_inner_product(x: &[u32], y: &[u32], n: usize, out: &mut [u32]) -> bool
    ensures value { result ≡ inner_product_fits (length x.now) (length y.now) (length out.old) n }
    ensures out_after { out.new ≡ left result out.old (inner_product_made x.now y.now n) }
{
    if fits::inner_product_fits(x.len(), y.len(), out.len(), n) {
        work::inner_product(x, y, n, out);
        true
    } else {
        false
    }
}

// The linear combination of n elements with as many numbers.
pub fn slice_combination(x: &[u32], factors: &[u32], n: usize, out: &mut [u32]) -> bool
    ensures value { result ≡ combination_fits (length x.now) (length factors.now) (length out.old) n }
    ensures out_after { out.new ≡ left result out.old (combination_made x.now factors.now n) }
{
    if fits::combination_fits(x.len(), factors.len(), out.len(), n) {
        work::combination(x, factors, n, out);
        true
    } else {
        false
    }
}

// The projection p of r vectors of n elements by their matrices of 256 rows.
pub fn slice_projection(pi: &[u32], s: &[u32], n: usize, r: usize, out: &mut [u32]) -> bool
    ensures value { result ≡ projection_fits (length pi.now) (length s.now) (length out.old) n r }
    ensures out_after { out.new ≡ left result out.old (projection_made pi.now s.now n r) }
{
    if fits::projection_fits(pi.len(), s.len(), out.len(), n, r) {
        work::projection(pi, s, n, r, out);
        true
    } else {
        false
    }
}

// φ'' for `number` rows of psi and of omega. The randomness is the matrices, psi and omega, one after the other.
pub fn slice_phi(
    phi: &[u32],
    randomness: &[u32],
    r: usize,
    n: usize,
    count: usize,
    number: usize,
    out: &mut [u32],
) -> bool
    ensures value { result ≡ phi_fits (length phi.now) (length randomness.now) (length out.old) r n count number }
    ensures out_after { out.new ≡ left result out.old (phi_made phi.now randomness.now r n count number) }
{
    if fits::phi_fits(phi.len(), randomness.len(), out.len(), r, n, count, number) {
        work::phi(phi, randomness, r, n, count, number, out);
        true
    } else {
        false
    }
}

// u1 of so many rows. The matrices are B and C, and the cells those of t and of g, one after the other.
pub fn slice_u1(
    matrices: &[u32],
    from: &[u32],
    rows: usize,
    t_cells: usize,
    t_parts: usize,
    g_cells: usize,
    g_parts: usize,
    base: u32,
    out: &mut [u32],
) -> bool
    ensures value { result ≡ u1_fits (length matrices.now) (length from.now) (length out.old) rows t_cells t_parts g_cells g_parts base }
    ensures out_after { out.new ≡ left result out.old (u1_made matrices.now from.now rows t_cells t_parts g_cells g_parts base) }
{
    if fits::u1_fits(
        matrices.len(),
        from.len(),
        out.len(),
        rows,
        t_cells,
        t_parts,
        g_cells,
        g_parts,
        base,
    ) {
        work::u1(
            matrices, from, rows, t_cells, t_parts, g_cells, g_parts, base, out,
        );
        true
    } else {
        false
    }
}
