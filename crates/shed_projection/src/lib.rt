// The call that gives the p of a run of witness vectors (document 02, Item 10), for every input.
#![tactic(auto)]

ghost use Rattle.std.specs.Prelude.{◌≡◌, ◌≤◌, length};
ghost use Rattle.spec_protocol.specs.Layout.{scratch_need};
ghost use Rattle.spec_protocol.specs.Prover.{zeroed};
ghost use Rattle.core_jl.specs.Run.{run as projected, Within};
ghost use Rattle.relation_env_params.specs.Parameters.{parameters_of};
ghost use Rattle.layout_sizes.specs.Sizes.{Sized};
ghost use Rattle.spec_sheds.specs.Runs.{p_section, stored};
ghost use Rattle.shed_projection.specs.Call.{PCall};

use api_answers::verdicts::LabradorAnswer;
use layout_sizes::buffers;
use relation_env_params::env_params::EnvironmentParameters;
use shed_admission::admission::admit_projection;

// The section of p of so many vectors of n elements: the whole call's projection, of slices that start at the run's first vector.
fn put_p(projection: &[u32], vectors: &[u32], n: usize, count: usize, output: &mut [u32])
    requires { Within projection.now 1 vectors.now 1 n count × (257 ≤ length output.old) }
    ensures { output.new ≡ stored p_section (projected projection.now 1 vectors.now 1 n 0 count) output.old }
{
    output[0] = 256;
    core_jl::projection::project_run(projection, 1, vectors, 1, n, 0, count, output, 1);
}

// The work: p's section, and "scratch is zero to the length needed".
fn work(
    params: EnvironmentParameters,
    count: usize,
    projection: &[u32],
    vectors: &[u32],
    scratch: &mut [u32],
    output: &mut [u32],
) -> LabradorAnswer
    requires within { Within projection.now 1 vectors.now 1 params.rank count × (257 ≤ length output.old) }
    requires sized { Sized (parameters_of params) × (scratch_need (parameters_of params) ≤ length scratch.old) }
    ensures number_value { (result.number ≡ 0) × (result.place ≡ 0) }
    ensures output_after { output.new ≡ stored p_section (projected projection.now 1 vectors.now 1 params.rank 0 count) output.old }
    ensures scratch_after { scratch.new ≡ zeroed (scratch_need (parameters_of params)) scratch.old }
{
    put_p(projection, vectors, params.rank, count, output);
    let need = buffers::scratch_length(params);
    ring_words::clear(scratch, need);
    LabradorAnswer {
        number: 0,
        place: 0,
    }
}

// "A call takes a run of witness vectors, from index first up to but not including end, with their projection words, and gives that run's p".
pub fn project(
    job: &[u32],
    first: usize,
    end: usize,
    projection: &[u32],
    vectors: &[u32],
    scratch: &mut [u32],
    output: &mut [u32],
) -> LabradorAnswer
    ensures { PCall job.now first end projection.now vectors.now scratch.old output.old scratch.new output.new result }
{
    match admit_projection(
        job,
        first,
        end,
        projection,
        vectors,
        scratch.len(),
        output.len(),
    ) {
        Ok(params) => work(params, end - first, projection, vectors, scratch, output),
        Err(refusal) => LabradorAnswer::from(refusal),
    }
}
