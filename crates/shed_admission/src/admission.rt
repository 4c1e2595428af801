// The order of refusals before the work of the calls on runs (document 02, Item 10), as one answer.
ghost use Rattle.std.specs.Prelude.{◌≡◌, IfOk};
ghost use Rattle.spec_leaves.specs.Answer.{◌then◌};
ghost use Rattle.spec_protocol.specs.Parameters.{parameters};
ghost use Rattle.spec_protocol.specs.Layout.{job_refusal};
ghost use Rattle.api_answers.specs.Calls.{labrador_answer};
ghost use Rattle.spec_sheds.specs.Runs.{run, rows_section, run_refusal, project_refusal, rows_refusal};
ghost use Rattle.shed_admission.specs.declared.admission.RunRefusal.TheVariants.{Refused};
ghost use Rattle.shed_admission.specs.Admitted.{of_run_refusal, of_run_admitted, InJob, Projectable, Runnable};

use crate::checks::{check_given, check_lent};
use admission_slices::job;
use api_answers::verdicts::LabradorAnswer;
use relation_env_params::env_params::EnvironmentParameters;
use spec_leaves::answers::Refusal;

// Why a call on a run is refused: by document 01's list, or by 34 with the run's first index.
#[derive(Clone, Copy)]
pub enum RunRefusal {
    Refused(Refusal),
    Outside(usize),
}

impl From<Refusal> for RunRefusal {
    ghost from_gives = { λ refusal of_run. of_run ≡ Refused refusal };

    fn from(refusal: Refusal) -> RunRefusal {
        RunRefusal::Refused(refusal)
    }
}

impl From<RunRefusal> for LabradorAnswer {
    ghost from_gives = { λ refusal answer. answer ≡ labrador_answer (of_run_refusal refusal) };

    fn from(refusal: RunRefusal) -> LabradorAnswer {
        match refusal {
            RunRefusal::Refused(refusal) => LabradorAnswer::from(refusal),
            RunRefusal::Outside(first) => LabradorAnswer {
                number: 34,
                place: first as u64,
            },
        }
    }
}

// "34 a run whose end is at or below its first index or past r (place is that first index), after the job's refusals"
fn admit_run(job: &[u32], first: usize, end: usize) -> Result<EnvironmentParameters, RunRefusal>
    ensures result_value { of_run_admitted result ≡ job_refusal job.now then run_refusal (parameters job.now) (run first end) }
    ensures at { IfOk result (InJob job.now (run first end)) }
{
    let params = job::check(job)?;
    if end <= first || params.multiplicity < end {
        return Err(RunRefusal::Outside(first));
    }
    Ok(params)
}

// "then come 7 and 8 on the run's projection words […], 11 and 12 on its vectors, 1, 2": the call that gives a run's p.
pub fn admit_projection(
    job: &[u32],
    first: usize,
    end: usize,
    projection: &[u32],
    vectors: &[u32],
    scratch: usize,
    output: usize,
) -> Result<EnvironmentParameters, RunRefusal>
    ensures result_value { of_run_admitted result ≡ project_refusal job.now (run first end) projection.now vectors.now scratch output }
    ensures at { IfOk result (Projectable job.now (run first end) projection.now vectors.now scratch output) }
{
    let params = admit_run(job, first, end)?;
    let count = end - first;
    let matrices = 16384 * params.rank * count;
    let words = 64 * (count * params.rank);
    check_given(
        params, matrices, projection, words, vectors, scratch, output,
    )?;
    Ok(params)
}

// The call that gives a run's rows of t.
pub fn admit_rows(
    job: &[u32],
    first: usize,
    end: usize,
    vectors: &[u32],
    scratch: usize,
    output: usize,
) -> Result<EnvironmentParameters, RunRefusal>
    ensures result_value { of_run_admitted result ≡ rows_refusal job.now (run first end) vectors.now scratch output }
    ensures at { IfOk result (Runnable job.now (run first end) vectors.now scratch (rows_section (parameters job.now) (run first end)) output) }
{
    let params = admit_run(job, first, end)?;
    let count = end - first;
    let need = 1 + 64 * (count * params.kappa);
    let words = 64 * (count * params.rank);
    check_lent(params, words, vectors, scratch, need, output)?;
    Ok(params)
}
