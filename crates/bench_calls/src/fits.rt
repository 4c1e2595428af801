// Whether the slices hold exactly the operands that the sizes tell.
ghost use Rattle.std.specs.Prelude.{◌≡◌};
ghost use Rattle.bench_calls.specs.Fits.{inner_product_fits, combination_fits, projection_fits, phi_fits, u1_fits};

// An inner product of two vectors of n elements.
pub fn inner_product_fits(x: usize, y: usize, out: usize, n: usize) -> bool
    ensures { result ≡ inner_product_fits x y out n }
{
    if n <= 64 {
        (x == 64 * n) & (y == 64 * n) & (out == 64)
    } else {
        false
    }
}

// A linear combination of n elements with as many numbers.
pub fn combination_fits(x: usize, factors: usize, out: usize, n: usize) -> bool
    ensures { result ≡ combination_fits x factors out n }
{
    if n <= 64 {
        (x == 64 * n) & (factors == n) & (out == 64)
    } else {
        false
    }
}

// The projection of r vectors of n elements.
pub fn projection_fits(pi: usize, s: usize, out: usize, n: usize, r: usize) -> bool
    ensures { result ≡ projection_fits pi s out n r }
{
    if (n <= 64) & (r <= 16) {
        (pi == r * 256 * (64 * n)) & (s == r * (64 * n)) & (out == 256)
    } else {
        false
    }
}

// φ'' for `number` rows of psi and of omega, of `count` constraints of r vectors of n elements.
pub fn phi_fits(
    phi: usize,
    randomness: usize,
    out: usize,
    r: usize,
    n: usize,
    count: usize,
    number: usize,
) -> bool
    ensures { result ≡ phi_fits phi randomness out r n count number }
{
    if (n <= 64) & (r <= 16) & ((count <= 64) & (number <= 32)) {
        (phi == 64 * (r * n * count))
            & (randomness == r * 256 * (64 * n) + number * count + number * 256)
            & (out == 64 * (number * (r * n)))
    } else {
        false
    }
}

// u1 of so many rows, of the digits of t and of g.
pub fn u1_fits(
    matrices: usize,
    from: usize,
    out: usize,
    rows: usize,
    t_cells: usize,
    t_parts: usize,
    g_cells: usize,
    g_parts: usize,
    base: u32,
) -> bool
    ensures { result ≡ u1_fits matrices from out rows t_cells t_parts g_cells g_parts base }
{
    if (t_cells <= 256)
        & (t_parts <= 32)
        & (rows <= 16)
        & ((g_cells <= 136) & (g_parts <= 32) & (2 <= base))
    {
        (matrices == 64 * (rows * (t_cells * t_parts)) + 64 * (rows * (g_cells * g_parts)))
            & (from == 64 * t_cells + 64 * g_cells)
            & (out == 64 * rows)
    } else {
        false
    }
}
