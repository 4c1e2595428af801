// The refusals of the whole call: 35, the job's, and 1.
ghost use Rattle.std.specs.Prelude.{◌≡◌, ◌≤◌, IfOk};
ghost use Rattle.relation_env_params.specs.Parameters.{parameters_of};
ghost use Rattle.layout_sizes.specs.Sizes.{Sized};
ghost use Rattle.spec_leaves.specs.Answer.{of_result, ◌then◌};
ghost use Rattle.spec_protocol.specs.Parameters.{parameters};
ghost use Rattle.spec_protocol.specs.Layout.{job_refusal};
ghost use Rattle.spec_protocol.specs.Many.{many_need, need_refusal, many_refusal};
ghost use Rattle.verify_many_admission.specs.declared.whole.ManyRefusal.TheVariants.{Refused};
ghost use Rattle.verify_many_admission.specs.Admitted.{of_many, ManyGiven};

use admission_slices::job;
use layout_sizes::buffers;
use relation_env_params::env_params::EnvironmentParameters;
use spec_leaves::answers::Refusal;

// Why the whole call is refused: for the number of transcripts, or by document 01's list.
#[derive(Clone, Copy, Debug, PartialEq, Eq)]
pub enum ManyRefusal {
    Count,
    Refused(Refusal),
}

impl From<Refusal> for ManyRefusal {
    ghost from_gives = { λ refusal many. many ≡ Refused refusal };

    fn from(refusal: Refusal) -> ManyRefusal {
        ManyRefusal::Refused(refusal)
    }
}

// "Scratch is the single need times that number".
pub fn need(params: EnvironmentParameters, count: usize) -> usize
    requires { Sized (parameters_of params) × (count ≤ 8) }
    ensures { result ≡ many_need (parameters_of params) count }
{
    let one = buffers::scratch_length(params);
    count * one
}

// 1, with the length that all need.
fn check_scratch(lent: usize, params: EnvironmentParameters, count: usize) -> Result<(), Refusal>
    requires { Sized (parameters_of params) × (count ≤ 8) }
    ensures { of_result result ≡ need_refusal (parameters_of params) count lent }
{
    let needed = need(params, count);
    if lent < needed {
        Err(Refusal::ScratchTooShort(needed))
    } else {
        Ok(())
    }
}

// "a refused job or short scratch, tested right after the job".
fn admit_job(job: &[u32], count: usize, scratch: usize) -> Result<EnvironmentParameters, Refusal>
    requires { count ≤ 8 }
    ensures result_value { of_result result ≡ job_refusal job.now then need_refusal (parameters job.now) count scratch }
    ensures at { IfOk result (ManyGiven job.now count scratch) }
{
    let params = job::check(job)?;
    check_scratch(scratch, params, count)?;
    Ok(params)
}

// 35 "before any other test".
pub fn admit(job: &[u32], count: u32, scratch: usize) -> Result<EnvironmentParameters, ManyRefusal>
    ensures result_value { of_many result ≡ many_refusal job.now count scratch }
    ensures at_many { IfOk result (ManyGiven job.now count scratch) }
{
    if count < 1 || 8 < count {
        return Err(ManyRefusal::Count);
    }
    let params = admit_job(job, count as usize, scratch)?;
    Ok(params)
}
