// The aggregated constraints and the challenges in the lent scratch, as the prover and the verifier both need them. Each step is handed the call's
// slices whole, with the parameters and the places of the regions.
#![tactic(auto)]

ghost use Rattle.std.specs.Prelude.{◌≡◌};
ghost use Rattle.math.specs.lists.Part.{splice};
ghost use Rattle.core_workspace.specs.Ready.{Ready, Drawn, Challengeable};
ghost use Rattle.core_workspace.specs.Holds.{Holds};
ghost use Rattle.core_workspace.specs.Aggregated.{a''_words, φ''_words, double_prime_words, φ_words, a_words, challenge_words};
ghost use Rattle.relation_env_params.specs.Parameters.{parameters_of};

use core_aggregate;
use core_aggregate_ntt::mix;
use layout_regions::Regions;
use layout_sizes::{names, offsets};
use relation_env_params::env_params::EnvironmentParameters;
use ring_inner_product::Strided;
use transcript_challenges;

// "φ''_k,i = Σ psi[k][l]·φ'_l,i + Σ omega[k][j]·conj(row j of Π_i)"
#[tactic(auto, using(crate::proofs::Ready::sizes))]
pub fn phi_double_prime(
    job: &[u32],
    randomness: &[u32],
    params: EnvironmentParameters,
    regions: Regions,
    scratch: &mut [u32],
)
    requires { Ready job.now params regions scratch.old × Drawn 3 job.now randomness.now }
    ensures { scratch.new ≡ splice scratch.old regions.phi2 (φ''_words job.now randomness.now) }
{
    core_aggregate::phi_double_prime(
        job,
        offsets::of_job(params, names::CONSTANT_PHI),
        params.multiplicity,
        params.rank,
        params.constraint_l,
        randomness,
        offsets::of_randomness(params, names::PROJECTION),
        offsets::of_randomness(params, names::PSI),
        offsets::of_randomness(params, names::OMEGA),
        params.const_agg_length,
        scratch,
        regions.phi2,
    );
}

// "a''_k = Σ psi[k][l]·a'_l"
#[tactic(auto, using(crate::proofs::Ready::sizes))]
pub fn a_double_prime(
    job: &[u32],
    randomness: &[u32],
    params: EnvironmentParameters,
    regions: Regions,
    scratch: &mut [u32],
)
    requires { Ready job.now params regions scratch.old × Drawn 2 job.now randomness.now }
    ensures { scratch.new ≡ splice scratch.old regions.a2 (a''_words job.now randomness.now) }
{
    let cells = layout_sizes::slices::triangle(params.multiplicity);
    core_aggregate::a_double_prime(
        job,
        offsets::of_job(params, names::CONSTANT_A),
        cells,
        params.constraint_l,
        randomness,
        offsets::of_randomness(params, names::PSI),
        params.const_agg_length,
        scratch,
        regions.a2,
    );
}

// φ'' and a'', whose regions are the first two.
pub fn double_prime(
    job: &[u32],
    randomness: &[u32],
    params: EnvironmentParameters,
    regions: Regions,
    scratch: &mut [u32],
)
    requires { Ready job.now params regions scratch.old × Drawn 3 job.now randomness.now }
    ensures { scratch.new ≡ splice scratch.old 0 (double_prime_words job.now randomness.now) }
{
    phi_double_prime(job, randomness, params, regions, scratch);
    a_double_prime(job, randomness, params, regions, scratch);
}

// φ of the ring constraints and of the φ'' in its region: "Alpha weighs the ring constraints and beta the doubled-prime ones into a, φ, b."
#[tactic(auto, using(crate::proofs::Ready::sizes))]
pub fn phi(
    job: &[u32],
    randomness: &[u32],
    params: EnvironmentParameters,
    regions: Regions,
    scratch: &mut [u32],
)
    requires { Ready job.now params regions scratch.old × Drawn 5 job.now randomness.now × Holds scratch.old regions.phi2 (φ''_words job.now randomness.now) }
    ensures { scratch.new ≡ splice scratch.old regions.phi (φ_words job.now randomness.now) }
{
    let width = params.multiplicity * params.rank;
    let step = 64 * width;
    let constraints = Strided {
        at: offsets::of_job(params, names::RING_PHI),
        step,
        count: params.constraint_k,
    };
    let aggregated = Strided {
        at: regions.phi2,
        step,
        count: params.const_agg_length,
    };
    mix::aggregate(
        job,
        constraints,
        randomness,
        offsets::of_randomness(params, names::ALPHA),
        offsets::of_randomness(params, names::BETA),
        scratch,
        aggregated,
        width,
        regions.phi,
    );
}

// a of the ring constraints and of the a'' in its region.
#[tactic(auto, using(crate::proofs::Ready::sizes))]
pub fn a(
    job: &[u32],
    randomness: &[u32],
    params: EnvironmentParameters,
    regions: Regions,
    scratch: &mut [u32],
)
    requires { Ready job.now params regions scratch.old × Drawn 5 job.now randomness.now × Holds scratch.old regions.a2 (a''_words job.now randomness.now) }
    ensures { scratch.new ≡ splice scratch.old regions.a_or_h (a_words job.now randomness.now) }
{
    let cells = layout_sizes::slices::triangle(params.multiplicity);
    let step = 64 * cells;
    let constraints = Strided {
        at: offsets::of_job(params, names::RING_A),
        step,
        count: params.constraint_k,
    };
    let aggregated = Strided {
        at: regions.a2,
        step,
        count: params.const_agg_length,
    };
    mix::aggregate(
        job,
        constraints,
        randomness,
        offsets::of_randomness(params, names::ALPHA),
        offsets::of_randomness(params, names::BETA),
        scratch,
        aggregated,
        cells,
        regions.a_or_h,
    );
}

// The challenges c_i.
pub fn generate_challenges(
    randomness: &[u32],
    params: EnvironmentParameters,
    regions: Regions,
    scratch: &mut [u32],
)
    requires { Challengeable randomness.now params regions scratch.old }
    ensures { scratch.new ≡ splice scratch.old regions.challenges (challenge_words (parameters_of params) randomness.now) }
{
    transcript_challenges::generate_challenges(
        randomness,
        offsets::of_randomness(params, names::SIGNS),
        offsets::of_randomness(params, names::SHUFFLES),
        params.multiplicity,
        scratch,
        regions.challenges,
    );
}
