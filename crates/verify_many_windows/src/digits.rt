// The digits of cells stored one after the other, and the product of a row with stored digits, of which the digits of one cell at a time are formed.
ghost use Rattle.std.specs.Prelude.{◌≡◌, ◌*◌, ◌≤◌, ◌<◌, length};
ghost use Rattle.math.specs.lists.Part.{splice};
ghost use Rattle.spec_leaves.specs.Ring.{words};
ghost use Rattle.ring_inner_product.specs.Run.{run};
ghost use Rattle.spec_protocol.specs.Formulas.{dot, flat};
ghost use Rattle.commitments_outer.specs.Cells.{width, Room, digits_at, Cells};
ghost use Rattle.verify_many_windows.specs.Stored.{Stored};

use commitments_outer::outer_commitments::Digits;
use ring_digit_products::{forms, products};
use ring_rq::rq::Rq;
use ring_rq_vector::digits;

// The digits of cells stored from `to_at` on.
pub fn store_cells(from: &[u32], d: Digits, base: u32, to: &mut [u32], to_at: usize)
    requires { Cells from.now d × (1 < base) × Room to.old to_at (width d) }
    ensures { to.new ≡ splice to.old to_at (flat (digits_at from.now d base)) }
{
    let cells = d.cells;
    let parts = d.parts;
    let block = 64 * parts;
    let mut at = d.at;
    let mut place = to_at;
    for c in 0..cells {
        digits::decompose_to(from, at, base, parts, to, place);
        at += 64;
        place += block;
    }
}

// The product of the elements from `row` on with the digits of cells that are stored from `at` on. The digits of one cell at a time are formed in what is lent.
fn product_by_forms(
    matrix: &[u32],
    row: usize,
    v: &[u32],
    at: usize,
    cells: usize,
    parts: usize,
    half: u64,
    forms: &mut [u64],
) -> Rq
    requires { Room matrix.now row (cells * parts) × Room v.now at (cells * parts) × Stored v.now at cells parts half × (128 * parts ≤ length forms.old) }
    ensures { result.coeffs ≡ words (dot (cells * parts) (run matrix.now row 64) (run v.now at 64)) }
{
    let block = 64 * parts;
    let mut total = Rq::zero();
    let mut column = row;
    let mut from = at;
    for c in 0..cells {
        let to = from + block;
        let digits = &v[from..to];
        forms::store_forms(digits, parts, half, forms);
        let product = products::inner_product(matrix, column, digits, forms, half, parts);
        let next = total.add(product);
        total = next;
        column += block;
        from = to;
    }
    total
}

// The same, with room for the forms of up to 4 parts, or of 32: what is lent is cleared first.
pub fn row_product(
    matrix: &[u32],
    row: usize,
    v: &[u32],
    at: usize,
    cells: usize,
    parts: usize,
    half: u64,
) -> Rq
    requires { Room matrix.now row (cells * parts) × Room v.now at (cells * parts) × Stored v.now at cells parts half }
    ensures { result.coeffs ≡ words (dot (cells * parts) (run matrix.now row 64) (run v.now at 64)) }
{
    if parts <= 4 {
        let mut forms = [0u64; 512];
        product_by_forms(matrix, row, v, at, cells, parts, half, &mut forms)
    } else {
        let mut forms = [0u64; 4096];
        product_by_forms(matrix, row, v, at, cells, parts, half, &mut forms)
    }
}
