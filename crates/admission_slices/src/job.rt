// The job: 3, 4, 5 and 6.
ghost use Rattle.std.specs.Prelude.{◌≡◌, IfOk};
ghost use Rattle.spec_leaves.specs.Answer.{of_result, ◌then◌};
ghost use Rattle.spec_protocol.specs.Parameters.{parameters};
ghost use Rattle.spec_protocol.specs.Layout.{layout, ranged, job_sections, job_refusal};
ghost use Rattle.relation_env_params.specs.Parameters.{parameters_of};
ghost use Rattle.relation_env_params.specs.SectionOne.{Sound};

use crate::slices;
use crate::slices::Slice;
use relation_env_params::env_params::EnvironmentParameters;
use spec_leaves::answers::Refusal;

// "other job sections 3, 6"
fn sections(job: &[u32], params: EnvironmentParameters) -> Result<(), Refusal>
    requires { Sound job.now × (parameters_of params ≡ parameters job.now) }
    ensures { of_result result ≡ layout 3 job.now 31 (job_sections (parameters_of params)) then ranged 6 job.now 31 (job_sections (parameters_of params)) }
{
    slices::check(
        Slice::Job,
        job,
        31,
        &layout_sizes::slices::job_sections(params),
    )
}

// "section one by 3, then 4, 5; other job sections 3, 6"
pub fn check(job: &[u32]) -> Result<EnvironmentParameters, Refusal>
    ensures result_value { of_result result ≡ job_refusal job.now }
    ensures at { IfOk result (λ params. parameters_of params ≡ parameters job.now) }
{
    let params = layout_section_one::read(job)?;
    sections(job, params)?;
    Ok(params)
}
