// The call that gives the rows of t of a run of witness vectors (document 02, Item 10), for every input.
#![tactic(auto)]

ghost use Rattle.std.specs.Prelude.{◌≡◌, ◌+◌, ◌*◌, length};
ghost use Rattle.spec_protocol.specs.Parameters.{parameters};
ghost use Rattle.api_answers.specs.Calls.{labrador_answer};
ghost use Rattle.spec_sheds.specs.Runs.{run, rows_section, stored_rows, run_norm, rows_made};
ghost use Rattle.shed_admission.specs.Admitted.{RunGiven};
ghost use Rattle.shed_rows.specs.Call.{RowsCall};

use api_answers::numbers::Numbered;
use api_answers::verdicts::LabradorAnswer;
use commitments_ajtai::ajtai_commitment;
use commitments_bounds::common_instances;
use layout_sizes::{buffers, names, offsets};
use relation_env_params::env_params::EnvironmentParameters;
use shed_admission::admission::admit_rows;

// The section of the rows of a run: the whole call's commitments, of a slice that starts at the run's first vector.
fn put_rows(
    job: &[u32],
    params: EnvironmentParameters,
    first: usize,
    end: usize,
    vectors: &[u32],
    output: &mut [u32],
)
    requires { RunGiven job.now (run first end) vectors.now (rows_section (parameters job.now) (run first end)) (length output.old) params }
    ensures { output.new ≡ stored_rows job.now (run first end) vectors.now output.old }
{
    let a_at = offsets::of_job(params, names::MATRIX_A);
    let count = end - first;
    let words = 64 * (count * params.kappa);
    output[0] = words as u32;
    let vectors_at = 1;
    ajtai_commitment::commit_all(
        job,
        a_at,
        params.kappa,
        params.rank,
        vectors,
        vectors_at,
        count,
        output,
        1,
    );
}

// "for t also 13, its i counted over the whole job"; after it the output's needed part is zero.
fn commit(
    job: &[u32],
    params: EnvironmentParameters,
    first: usize,
    end: usize,
    vectors: &[u32],
    output: &mut [u32],
) -> LabradorAnswer
    requires { RunGiven job.now (run first end) vectors.now (rows_section (parameters job.now) (run first end)) (length output.old) params }
    ensures value { result ≡ labrador_answer (run_norm job.now (run first end) vectors.now) }
    ensures output_after { output.new ≡ rows_made job.now (run first end) vectors.now output.old }
{
    let count = end - first;
    match common_instances::check_witness(vectors, 1, params.rank, count, params.bound_a) {
        Ok(()) => {
            put_rows(job, params, first, end, vectors, output);
            LabradorAnswer {
                number: 0,
                place: 0,
            }
        }
        Err(refusal) => {
            ring_words::clear(output, 1 + 64 * (count * params.kappa));
            let found = Numbered::from(refusal);
            LabradorAnswer {
                number: found.number,
                place: (first + found.place) as u64,
            }
        }
    }
}

// "For t the runs' rows, laid next to each other by rising index, are the whole t.": a run's rows.
pub fn rows(
    job: &[u32],
    first: usize,
    end: usize,
    vectors: &[u32],
    scratch: &mut [u32],
    output: &mut [u32],
) -> LabradorAnswer
    ensures { RowsCall job.now first end vectors.now scratch.old output.old scratch.new output.new result }
{
    match admit_rows(job, first, end, vectors, scratch.len(), output.len()) {
        Ok(params) => {
            let answer = commit(job, params, first, end, vectors, output);
            let need = buffers::scratch_length(params);
            ring_words::clear(scratch, need);
            answer
        }
        Err(refusal) => LabradorAnswer::from(refusal),
    }
}
