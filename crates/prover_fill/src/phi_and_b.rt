// φ, and b'' with it for the whole call.
ghost use Rattle.std.specs.Prelude.{◌≡◌};
ghost use Rattle.core_workspace.specs.Ready.{Drawn};
ghost use Rattle.core_workspace.specs.Holds.{Holds};
ghost use Rattle.core_workspace.specs.Aggregated.{φ''_words};
ghost use Rattle.prover_commit.specs.Work.{WorkGiven};
ghost use Rattle.prover_fill.specs.Stored.{weighed_scratch};

use core_aggregate_ntt::one_pass;
use layout_regions::Regions;
use layout_sizes::{names, offsets};
use relation_env_params::env_params::EnvironmentParameters;
use ring_inner_product::Strided;

// φ of the ring constraints and of the φ'' in its region, and then, where it is asked for, b'' of the a'', φ'' and g in theirs.
// Not inlined: its buffers lie beside those of φ'' and h, and not above them.
#[inline(never)]
pub fn phi_and_b(
    job: &[u32],
    randomness: &[u32],
    witness: &[u32],
    params: EnvironmentParameters,
    regions: Regions,
    scratch: &mut [u32],
    with_b: bool,
)
    requires { WorkGiven job.now witness.now params regions scratch.old × Drawn 5 job.now randomness.now × Holds scratch.old regions.phi2 (φ''_words job.now randomness.now) }
    ensures { scratch.new ≡ weighed_scratch with_b job.now randomness.now witness.now params regions scratch.old }
{
    let width = params.multiplicity * params.rank;
    let step = 64 * width;
    let constraints = Strided {
        at: offsets::of_job(params, names::RING_PHI),
        step,
        count: params.constraint_k,
    };
    one_pass::phi_and_b(
        job,
        constraints,
        randomness,
        offsets::of_randomness(params, names::ALPHA),
        offsets::of_randomness(params, names::BETA),
        scratch,
        regions,
        params.const_agg_length,
        params.multiplicity,
        params.rank,
        witness,
        1,
        with_b,
    );
}
