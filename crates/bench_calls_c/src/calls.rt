// The calls. Each answers whether its arguments fit, and works where they do.
ghost use Rattle.std.specs.Prelude.{◌≡◌, length};
ghost use Rattle.bench_calls.specs.Fits.{inner_product_fits, combination_fits, projection_fits, phi_fits, u1_fits};
ghost use Rattle.bench_calls.specs.Made.{left, inner_product_made, combination_made, projection_made, phi_made, u1_made};

// The inner product of two vectors of n elements.
#[unsafe(no_mangle)]
pub extern "C" fn slice_inner_product(x: &[u32], y: &[u32], n: usize, out: &mut [u32]) -> bool
    ensures value { result ≡ inner_product_fits (length x.now) (length y.now) (length out.old) n }
    ensures out_after { out.new ≡ left result out.old (inner_product_made x.now y.now n) }
{
    bench_calls::calls::slice_inner_product(x, y, n, out)
}

// The linear combination of n elements with as many numbers.
#[unsafe(no_mangle)]
pub extern "C" fn slice_combination(x: &[u32], factors: &[u32], n: usize, out: &mut [u32]) -> bool
    ensures value { result ≡ combination_fits (length x.now) (length factors.now) (length out.old) n }
    ensures out_after { out.new ≡ left result out.old (combination_made x.now factors.now n) }
{
    bench_calls::calls::slice_combination(x, factors, n, out)
}

// The projection p of r vectors of n elements by their matrices of 256 rows.
#[unsafe(no_mangle)]
pub extern "C" fn slice_projection(
    pi: &[u32],
    s: &[u32],
    n: usize,
    r: usize,
    out: &mut [u32],
) -> bool
    ensures value { result ≡ projection_fits (length pi.now) (length s.now) (length out.old) n r }
    ensures out_after { out.new ≡ left result out.old (projection_made pi.now s.now n r) }
{
    bench_calls::calls::slice_projection(pi, s, n, r, out)
}

// φ'' for `number` rows of psi and of omega. The randomness is the matrices, psi and omega, one after the other.
#[unsafe(no_mangle)]
pub extern "C" fn slice_phi(
    phi: &[u32],
    randomness: &[u32],
    r: usize,
    n: usize,
    count: usize,
    number: usize,
    out: &mut [u32],
) -> bool
    ensures value { result ≡ phi_fits (length phi.now) (length randomness.now) (length out.old) r n count number }
    ensures out_after { out.new ≡ left result out.old (phi_made phi.now randomness.now r n count number) }
{
    bench_calls::calls::slice_phi(phi, randomness, r, n, count, number, out)
}

// u1 of so many rows. The matrices are B and C, and the cells those of t and of g, one after the other.
#[unsafe(no_mangle)]
pub extern "C" fn slice_u1(
    matrices: &[u32],
    from: &[u32],
    rows: usize,
    t_cells: usize,
    t_parts: usize,
    g_cells: usize,
    g_parts: usize,
    base: u32,
    out: &mut [u32],
) -> bool
    ensures value { result ≡ u1_fits (length matrices.now) (length from.now) (length out.old) rows t_cells t_parts g_cells g_parts base }
    ensures out_after { out.new ≡ left result out.old (u1_made matrices.now from.now rows t_cells t_parts g_cells g_parts base) }
{
    bench_calls::calls::slice_u1(
        matrices, from, rows, t_cells, t_parts, g_cells, g_parts, base, out,
    )
}
