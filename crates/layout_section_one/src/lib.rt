// Section one of the job: its layout (3), its parameters' limits (4), and an L below its least (5).
#![tactic(auto)]

ghost use Rattle.std.specs.Prelude.{◌≡◌, ◌≤◌, length, get_or, IfOk};
ghost use Rattle.spec_leaves.specs.Answer.{fine, of_result, ◌then◌};
ghost use Rattle.spec_protocol.specs.Checks.{first};
ghost use Rattle.spec_protocol.specs.Parameters.{parameters, limits, enough_aggregations};
ghost use Rattle.spec_protocol.specs.Layout.{first_section};
ghost use Rattle.layout_sections.specs.Sections.{listed, of_found};
ghost use Rattle.relation_env_params.specs.Parameters.{parameters_of};
ghost use Rattle.layout_section_one.specs.SectionOne.{limit_at, least_l, section_one};

use layout_sections::counts;
use layout_sections::sections::Section;
use relation_env_params::env_params;
use relation_env_params::env_params::EnvironmentParameters;
use spec_leaves::answers::Refusal;
use spec_leaves::modulus;

// Section one alone: 30 words, none of them bounded.
fn first_sections() -> [Section; 1]
    ensures { listed result ≡ first_section }
{
    [Section {
        count: 30,
        greatest: u32::MAX,
    }]
}

// The first parameter below its least or above its greatest value; the tables go by place, and the count's is not looked at.
fn first_out_of_limits(job: &[u32], least: [u32; 13], greatest: [u32; 13]) -> Option<usize>
    requires { 31 ≤ length job.now }
    ensures { of_found 4 result ≡ first 12 (limit_at least greatest job.now) }
{
    for k in 0..12 {
        let place = k + 1;
        let value = job[place];
        if value < least[place] {
            return Some(place);
        }
        if greatest[place] < value {
            return Some(place);
        }
    }
    None
}

// L against 128 divided by log_q, of parameters within their limits.
fn enough_aggregations(job: &[u32]) -> Result<EnvironmentParameters, Refusal>
    requires { (31 ≤ length job.now) × (limits (parameters job.now) ≡ fine) }
    ensures found { of_result result ≡ enough_aggregations (parameters job.now) }
    ensures read { IfOk result (λ params. parameters_of params ≡ parameters job.now) }
{
    let params = EnvironmentParameters::of_words(job);
    let least = env_params::least_aggregations(params.log_q);
    if params.const_agg_length < least {
        Err(Refusal::TooFewAggregations(12))
    } else {
        Ok(params)
    }
}

// The least number of constant-term constraints: 1 where there is no ring constraint, since K and l are not both 0.
fn least_l(job: &[u32]) -> u32
    requires { 31 ≤ length job.now }
    ensures { result ≡ least_l (get_or job.now 6 0) }
{
    if 0 < job[6] { 0 } else { 1 }
}

// The limits, then L against its least.
fn within_limits(job: &[u32]) -> Result<EnvironmentParameters, Refusal>
    requires { 31 ≤ length job.now }
    ensures found { of_result result ≡ limits (parameters job.now) then enough_aggregations (parameters job.now) }
    ensures read { IfOk result (λ params. parameters_of params ≡ parameters job.now) }
{
    let least = [30, 1, 1, 1, 1, 1, 0, least_l(job), 16, 2, 1, 1, 1];
    let greatest = [30, 64, 16, 16, 16, 16, 64, 64, 32, modulus::TOP, 32, 32, 32];
    match first_out_of_limits(job, least, greatest) {
        Some(place) => Err(Refusal::ParameterOutOfLimits(place)),
        None => enough_aggregations(job),
    }
}

// "section one by 3, then 4, 5"
pub fn read(job: &[u32]) -> Result<EnvironmentParameters, Refusal>
    ensures found { of_result result ≡ section_one job.now }
    ensures read { IfOk result (λ params. parameters_of params ≡ parameters job.now) }
{
    match counts::count(job, 0, &first_sections()) {
        Err(place) => Err(Refusal::JobLayout(place)),
        Ok(_) => within_limits(job),
    }
}
