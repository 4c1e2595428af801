// The exported calls on runs of witness vectors (document 02, Item 10).
ghost use Rattle.shed_projection.specs.Call.{PCall};
ghost use Rattle.shed_rows.specs.Call.{RowsCall};
ghost use Rattle.shed_sums.specs.Call.{AddCall};

use api_answers::verdicts::LabradorAnswer;

// The p of the witness vectors from `first` up to `end`, from their projection words.
pub fn labrador_shed_projection(
    job: &[u32],
    first: u32,
    end: u32,
    projection: &[u32],
    vectors: &[u32],
    scratch: &mut [u32],
    output: &mut [u32],
) -> LabradorAnswer
    ensures { PCall job.now first end projection.now vectors.now scratch.old output.old scratch.new output.new result }
{
    shed_projection::project(
        job,
        first as usize,
        end as usize,
        projection,
        vectors,
        scratch,
        output,
    )
}

// The rows of t of the witness vectors from `first` up to `end`.
pub fn labrador_shed_rows(
    job: &[u32],
    first: u32,
    end: u32,
    vectors: &[u32],
    scratch: &mut [u32],
    output: &mut [u32],
) -> LabradorAnswer
    ensures { RowsCall job.now first end vectors.now scratch.old output.old scratch.new output.new result }
{
    shed_rows::rows(job, first as usize, end as usize, vectors, scratch, output)
}

// Two p added.
pub fn labrador_add_projections(p: &[u32], other: &[u32], output: &mut [u32]) -> LabradorAnswer
    ensures { AddCall p.now other.now output.old output.new result }
{
    shed_sums::add(p, other, output)
}
