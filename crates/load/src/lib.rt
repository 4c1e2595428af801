// A test load: job, witness and randomness from twelve parameters and a seed (document 02, Items 1 and 6).
#![tactic(auto)]

ghost use Rattle.std.specs.Prelude.{◌≡◌, ◌+◌, ◌≤◌, length};
ghost use Rattle.math.specs.lists.Part.{splice};
ghost use Rattle.spec_leaves.specs.Answer.{of_result};
ghost use Rattle.spec_protocol.specs.Layout.{span, sections, witness_sections, randomness_sections};
ghost use Rattle.spec_protocol.specs.Load.{load_refusal, load_job, load_witness, load_randomness, blank_job, after_job, drawn, after};
ghost use Rattle.spec_protocol.specs.Load.{witness_rules, randomness_rules, job_need, witness_need, randomness_need};
ghost use Rattle.relation_env_params.specs.Parameters.{parameters_of};
ghost use Rattle.layout_sizes.specs.Sizes.{Sized};
ghost use Rattle.load_needs.specs.Given.{given, Ready};
ghost use Rattle.load.specs.Sums.{Blank, sums_of};
ghost use Rattle.load.specs.Exit.{job_exit, witness_exit, randomness_exit, witness_drawn};

use layout_sizes::{names, offsets, slices};
use load_constraints::sums::Target;
use load_draw::Rule;
use load_needs::LabradorParameters;
use relation_env_params::env_params::EnvironmentParameters;
use spec_leaves::answers::Refusal;

// Section one, then the sections as they are drawn; b0 and b are zero.
fn draw_job(g: LabradorParameters, params: EnvironmentParameters, seed: u32, job: &mut [u32]) -> u32
    requires { Ready (given g) params × (job_need (given g) ≤ length job.old) }
    ensures { (job.new ≡ splice job.old 0 (blank_job (given g) seed)) × (result ≡ after_job (given g) seed) }
{
    let one = load_needs::section_one_words(g);
    ring_words::copy(job, 0, &one, 0, 31);
    let rules = [
        Rule::Word,
        Rule::Word,
        Rule::Later,
        Rule::Word,
        Rule::Word,
        Rule::Later,
        Rule::Word,
        Rule::Word,
        Rule::Word,
        Rule::Word,
    ];
    load_draw::sections(job, 31, &slices::job_sections(params), &rules, seed)
}

fn draw_witness(params: EnvironmentParameters, state: u32, witness: &mut [u32]) -> u32
    requires { Sized (parameters_of params) × (span (witness_sections (parameters_of params)) ≤ length witness.old) }
    ensures { (witness.new ≡ splice witness.old 0 (witness_drawn (parameters_of params) state)) × (result ≡ after state witness_rules (witness_sections (parameters_of params))) }
{
    load_draw::sections(
        witness,
        0,
        &slices::witness_sections(params),
        &[Rule::Ternary],
        state,
    )
}

fn draw_randomness(params: EnvironmentParameters, state: u32, randomness: &mut [u32])
    requires { Sized (parameters_of params) × (span (randomness_sections (parameters_of params)) ≤ length randomness.old) }
    ensures { randomness.new ≡ splice randomness.old 0 (sections (drawn state randomness_rules (randomness_sections (parameters_of params)))) }
{
    let w = Rule::Word;
    let rules = [w, w, w, w, w, Rule::Sign, w];
    load_draw::sections(
        randomness,
        0,
        &slices::randomness_sections(params),
        &rules,
        state,
    );
}

// b0 and b of a job that has everything else.
fn work_out(params: EnvironmentParameters, job: &mut [u32], witness: &[u32])
    requires { Sized (parameters_of params) × Blank (parameters_of params) job.old × (span (witness_sections (parameters_of params)) ≤ length witness.now) }
    ensures { job.new ≡ sums_of (parameters_of params) job.old witness.now }
{
    let target = Target {
        b0_at: offsets::of_job(params, names::CONSTANT_B),
        l: params.constraint_l,
        b_at: offsets::of_job(params, names::RING_B),
        k: params.constraint_k,
    };
    let a0 = offsets::of_job(params, names::CONSTANT_A);
    let phi0 = offsets::of_job(params, names::CONSTANT_PHI);
    let a = offsets::of_job(params, names::RING_A);
    let phi = offsets::of_job(params, names::RING_PHI);
    let r = params.multiplicity;
    let n = params.rank;
    load_constraints::add_left(job, target, a0, phi0, a, phi, witness, 1, r, n);
}

// The work of a load whose buffers are long enough.
fn work(
    g: LabradorParameters,
    params: EnvironmentParameters,
    seed: u32,
    job: &mut [u32],
    witness: &mut [u32],
    randomness: &mut [u32],
)
    requires { Ready (given g) params × (job_need (given g) ≤ length job.old) × (witness_need (given g) ≤ length witness.old) × (randomness_need (given g) ≤ length randomness.old) }
    ensures job_after { job.new ≡ splice job.old 0 (load_job (given g) seed) }
    ensures witness_after { witness.new ≡ splice witness.old 0 (load_witness (given g) seed) }
    ensures randomness_after { randomness.new ≡ splice randomness.old 0 (load_randomness (given g) seed) }
{
    let after_job = draw_job(g, params, seed, job);
    let after_witness = draw_witness(params, after_job, witness);
    draw_randomness(params, after_witness, randomness);
    work_out(params, job, witness);
}

// "From eleven parameters", with L the twelfth, "and a seed word a call fills a job, a witness and randomness."
pub fn load(
    g: LabradorParameters,
    seed: u32,
    job: &mut [u32],
    witness: &mut [u32],
    randomness: &mut [u32],
) -> Result<(), Refusal>
    ensures result_value { of_result result ≡ load_refusal (given g) (length job.old) (length witness.old) (length randomness.old) }
    ensures job_after { job.new ≡ job_exit (given g) seed job.old witness.old randomness.old }
    ensures witness_after { witness.new ≡ witness_exit (given g) seed job.old witness.old randomness.old }
    ensures randomness_after { randomness.new ≡ randomness_exit (given g) seed job.old witness.old randomness.old }
{
    let params = load_needs::admit(g, job.len(), witness.len(), randomness.len())?;
    work(g, params, seed, job, witness, randomness);
    Ok(())
}
