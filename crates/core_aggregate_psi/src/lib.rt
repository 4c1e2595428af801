// Elements of the constant-term constraints weighed by the numbers of psi (core/aggregate.rs). The constraints' cells or vectors stand one constraint after
// the other, `width` elements each; element c of the result is weighed over the constraints' elements c.
#![tactic(auto)]

ghost use Rattle.std.specs.Prelude.{◌≡◌, ◌+◌, ◌*◌, ◌≤◌, length};
ghost use Rattle.math.specs.lists.Part.{splice};
ghost use Rattle.ring_inner_product.specs.Run.{Room};
ghost use Rattle.core_aggregate_psi.specs.Grid.{Grid, added_words, added_rows};

use ring_inner_product;

// The weighed elements added to those of a region: with the omega part there, φ'' for one row of psi.
pub fn add_weighed(
    job: &[u32],
    at: usize,
    width: usize,
    count: usize,
    numbers: &[u32],
    row: usize,
    out: &mut [u32],
    to: usize,
)
    requires { Grid job.now at width count × (row + count ≤ length numbers.now) × Room out.old to width }
    ensures { out.new ≡ splice out.old to (added_words out.old to job.now at width count numbers.now row) }
{
    for c in 0..width {
        let e = ring_inner_product::linear_combination(
            job,
            at + 64 * c,
            64 * width,
            numbers,
            row,
            count,
        );
        let sum = ring_words::load(out, to + 64 * c).add(e);
        ring_words::store(out, to + 64 * c, sum);
    }
}

// The weighed elements for each row of psi added to those of a region for each: with the omega part there, φ''.
pub fn add_weighed_rows(
    job: &[u32],
    at: usize,
    width: usize,
    count: usize,
    numbers: &[u32],
    row: usize,
    aggregations: usize,
    out: &mut [u32],
    to: usize,
)
    requires { Grid job.now at width count × (row + aggregations * count ≤ length numbers.now) × Room out.old to (aggregations * width) }
    ensures { out.new ≡ splice out.old to (added_rows out.old to job.now at width count numbers.now row aggregations) }
{
    let mut first = row;
    let mut place = to;
    for k in 0..aggregations {
        add_weighed(job, at, width, count, numbers, first, out, place);
        first += count;
        place += 64 * width;
    }
}
