// Commitments to the digits of cells, without storing all digits at once.
// A slice is passed whole with the place of its run: contracts speak of places in the whole slice, and a struct of the two would be built anew at each call.
ghost use Rattle.std.specs.Prelude.{◌≡◌, ◌+◌, ◌*◌, ◌≤◌, ◌<◌, length};
ghost use Rattle.math.specs.lists.Part.{splice};
ghost use Rattle.ring_inner_product.specs.Run.{run};
ghost use Rattle.ring_digit_products.specs.Forms.{DigitForms};
ghost use Rattle.commitments_outer.specs.Cells.{width, Room, added, row_product, digits_of_element, digits_product, u1_of, u2_of, Cells, Blocks, Buffers, CanonicalFrom};

use ring_digit_products::{forms, products};
use ring_rq_vector::digits;
use ring_rq_vector::vector::zero;
use ring_zq::wide::wide;

// The digits of `cells` elements from `at` on, each element in `parts` digits.
#[derive(Clone, Copy)]
pub struct Digits {
    pub at: usize,
    pub cells: usize,
    pub parts: usize,
}

// The inner products of n digits, whose forms are made before, with the rows' parts added to the rows' elements.
pub fn add_products(
    matrix: &[u32],
    m_at: usize,
    m_step: usize,
    rows: usize,
    v: &[u32],
    forms: &[u64],
    half: u64,
    n: usize,
    out: &mut [u32],
    out_at: usize,
)
    requires { Blocks matrix.now m_at m_step (64 * n) rows × (64 * n ≤ length v.now) × Room out.old out_at rows × DigitForms forms.now half v.now n }
    ensures { out.new ≡ added out.old out_at rows (row_product matrix.now m_at m_step n (run v.now 0 64)) }
{
    let mut row = m_at;
    let mut place = out_at;
    for k in 0..rows {
        let product = products::inner_product(matrix, row, v, forms, half, n);
        let sum = ring_words::load(out, place).add(product);
        ring_words::store(out, place, sum);
        row += m_step;
        place += 64;
    }
}

// The inner products of one cell's digits with the rows' parts added to the rows' elements. The digits and their forms are made in lent buffers; digits from where nothing
// goes on are zero and add nothing.
pub fn add_cell(
    matrix: &[u32],
    m_at: usize,
    m_step: usize,
    rows: usize,
    from: &[u32],
    at: usize,
    base: u32,
    parts: usize,
    digits: &mut [u32],
    forms: &mut [u64],
    out: &mut [u32],
    out_at: usize,
)
    requires { Blocks matrix.now m_at m_step (64 * parts) rows × (at + 64 ≤ length from.now) × Room out.old out_at rows × (1 < base) × (parts ≤ 32) × Buffers digits.old forms.old }
    ensures out_after { out.new ≡ added out.old out_at rows (row_product matrix.now m_at m_step parts (digits_of_element base from.now at)) }
    ensures buffers { Buffers digits.new forms.new }
{
    let used = digits::decompose_used(from, at, base, parts, digits, 0);
    let half = wide(base / 2);
    forms::store_forms(digits, used, half, forms);
    add_products(
        matrix, m_at, m_step, rows, digits, forms, half, used, out, out_at,
    );
}

// A matrix times the digits added to the rows' elements, cell after cell.
pub fn add_cells(
    matrix: &[u32],
    m_at: usize,
    rows: usize,
    from: &[u32],
    d: Digits,
    base: u32,
    out: &mut [u32],
    out_at: usize,
)
    requires { Room matrix.now m_at (rows * width d) × Cells from.now d × (1 < base) × Room out.old out_at rows × CanonicalFrom out.old out_at (64 * rows) }
    ensures { out.new ≡ added out.old out_at rows (digits_product matrix.now m_at from.now d base) }
{
    let cells = d.cells;
    let parts = d.parts;
    let block = 64 * parts;
    let step = 64 * (cells * parts);
    let mut digits = [0u32; 2048];
    let mut forms = [0u64; 4096];
    let mut column = m_at;
    let mut place = d.at;
    for c in 0..cells {
        add_cell(
            matrix,
            column,
            step,
            rows,
            from,
            place,
            base,
            parts,
            &mut digits,
            &mut forms,
            out,
            out_at,
        );
        column += block;
        place += 64;
    }
}

// u1: B times the digits of t and C times the digits of g, κ1 rows each.
pub fn compute_u1(
    job: &[u32],
    b_at: usize,
    c_at: usize,
    rows: usize,
    from: &[u32],
    t: Digits,
    g: Digits,
    base: u32,
    out: &mut [u32],
    out_at: usize,
)
    requires { Room job.now b_at (rows * width t) × Cells from.now t × Room job.now c_at (rows * width g) × Cells from.now g × (1 < base) × Room out.old out_at rows }
    ensures { out.new ≡ splice out.old out_at (u1_of job.now b_at c_at rows from.now t g base) }
{
    zero(out, out_at, rows);
    add_cells(job, b_at, rows, from, t, base, out, out_at);
    add_cells(job, c_at, rows, from, g, base, out, out_at);
}

// u2: D times the digits of h, κ2 rows.
pub fn compute_u2(
    job: &[u32],
    d_at: usize,
    rows: usize,
    from: &[u32],
    h: Digits,
    base: u32,
    out: &mut [u32],
    out_at: usize,
)
    requires { Room job.now d_at (rows * width h) × Cells from.now h × (1 < base) × Room out.old out_at rows }
    ensures { out.new ≡ splice out.old out_at (u2_of job.now d_at rows from.now h base) }
{
    zero(out, out_at, rows);
    add_cells(job, d_at, rows, from, h, base, out, out_at);
}
