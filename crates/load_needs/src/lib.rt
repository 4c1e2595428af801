// The parameters of a test load, what is refused of them, and the lengths that the three buffers need (document 02, Item 1).
#![tactic(auto)]

ghost use Rattle.std.specs.Prelude.{◌≡◌, IfOk};
ghost use Rattle.spec_leaves.specs.Answer.{of_result};
ghost use Rattle.spec_protocol.specs.Load.{load_parameters, load_refusal, needs_refusal};
ghost use Rattle.relation_env_params.specs.Parameters.{parameters_of};
ghost use Rattle.layout_sizes.specs.Sizes.{Sized};
ghost use Rattle.load_needs.specs.Given.{given, one_of, Lengths, fits_refusal, Ready};

use admission_buffers::output;
use layout_sections::sections;
use layout_sizes::slices;
use relation_env_params::env_params::EnvironmentParameters;
use spec_leaves::answers::Refusal;

// "From eleven parameters", with L the twelfth: in section one's order.
#[repr(C)]
#[derive(Clone, Copy)]
pub struct LabradorParameters {
    pub n: u32,
    pub r: u32,
    pub kappa: u32,
    pub kappa_1: u32,
    pub kappa_2: u32,
    pub constraint_k: u32,
    pub constraint_l: u32,
    pub log_q: u32,
    pub b: u32,
    pub t_1: u32,
    pub t_2: u32,
    pub const_agg_length: u32,
}

// The lengths needed.
#[derive(Clone, Copy)]
pub struct Needs {
    pub job: usize,
    pub witness: usize,
    pub randomness: usize,
}

// Section one with its count; "The six bounds are the largest three-word number."
pub fn section_one_words(g: LabradorParameters) -> [u32; 31]
    ensures { result ≡ one_of (given g) }
{
    let mut words = [u32::MAX; 31];
    words[..13].copy_from_slice(&[
        30,
        g.n,
        g.r,
        g.kappa,
        g.kappa_1,
        g.kappa_2,
        g.constraint_k,
        g.constraint_l,
        g.log_q,
        g.b,
        g.t_1,
        g.t_2,
        g.const_agg_length,
    ]);
    words
}

// "Parameters are refused by 4 and 5 with section one's places"
pub fn read(g: LabradorParameters) -> Result<EnvironmentParameters, Refusal>
    ensures found { of_result result ≡ needs_refusal (given g) }
    ensures read { IfOk result (λ params. parameters_of params ≡ load_parameters (given g)) }
{
    layout_section_one::read(&section_one_words(g))
}

pub fn lengths(params: EnvironmentParameters) -> Needs
    requires { Sized (parameters_of params) }
    ensures { Lengths (parameters_of params) result }
{
    Needs {
        job: 31 + sections::span(&slices::job_sections(params)),
        witness: sections::span(&slices::witness_sections(params)),
        randomness: sections::span(&slices::randomness_sections(params)),
    }
}

// "then the first output too short by 2, in the order job, witness, randomness"
fn fits(
    params: EnvironmentParameters,
    job: usize,
    witness: usize,
    randomness: usize,
) -> Result<(), Refusal>
    requires { Sized (parameters_of params) }
    ensures { of_result result ≡ fits_refusal (parameters_of params) job witness randomness }
{
    let needs = lengths(params);
    output::check_length(job, needs.job)?;
    output::check_length(witness, needs.witness)?;
    output::check_length(randomness, needs.randomness)
}

// All refusals of a load.
pub fn admit(
    g: LabradorParameters,
    job: usize,
    witness: usize,
    randomness: usize,
) -> Result<EnvironmentParameters, Refusal>
    ensures result_value { of_result result ≡ load_refusal (given g) job witness randomness }
    ensures at { IfOk result (Ready (given g)) }
{
    let params = read(g)?;
    fits(params, job, witness, randomness)?;
    Ok(params)
}
