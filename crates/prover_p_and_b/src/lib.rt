// p and b'' in the lent output, each after its count. The functions of p and b'' write from a place on and answer the place after it.
#![tactic(auto)]

ghost use Rattle.std.specs.Prelude.{◌≡◌, [], ◌∷◌, ◌+◌, ◌≤◌, ◌<◌, ◌^◌, length};
ghost use Rattle.math.specs.lists.Part.{part, splice};
ghost use Rattle.relation_env_params.specs.Parameters.{parameters_of};
ghost use Rattle.prover_commit.specs.Work.{Placed};
ghost use Rattle.prover_p_and_b.specs.Sections.{p_in, b''_in, SectionsRoom, Put, Projects};

use core_jl::projection;
use layout_regions::Regions;
use layout_sizes::{names, offsets};
use relation_env_params::env_params::EnvironmentParameters;

// `count` words of `from` from `start` on copied to `to` from `at` on. Word by word: one copy of lent slices would be a call of memmove, which the archive does not need.
fn copy(to: &mut [u32], at: usize, from: &[u32], start: usize, count: usize)
    requires { (at + count ≤ length to.old) × (start + count ≤ length from.now) }
    ensures { to.new ≡ splice to.old at (part from.now start count) }
{
    for k in 0..count {
        to[at + k] = from[start + k];
    }
}

// A section: its count, then its words, `count` words of `from` from `start` on.
pub fn put_section(to: &mut [u32], at: usize, from: &[u32], start: usize, count: usize)
    requires { (at + 1 + count ≤ length to.old) × (start + count ≤ length from.now) × (count < 2 ^ 32) }
    ensures { to.new ≡ splice to.old at (count ∷ part from.now start count) }
{
    to[at] = count as u32;
    copy(to, at + 1, from, start, count);
}

// "p = Σ Π_i·s_i over coefficients"
pub fn compute_p(
    randomness: &[u32],
    witness: &[u32],
    params: EnvironmentParameters,
    output: &mut [u32],
    at: usize,
) -> usize
    requires { Projects params randomness.now witness.now × SectionsRoom at (p_in (parameters_of params) randomness.now witness.now ∷ []) output.old }
    ensures { Put at result output.old output.new (p_in (parameters_of params) randomness.now witness.now ∷ []) }
{
    let pi_at = offsets::of_randomness(params, names::PROJECTION);
    output[at] = 256;
    projection::project_run(
        randomness,
        pi_at,
        witness,
        1,
        params.rank,
        0,
        params.multiplicity,
        output,
        at + 1,
    );
    at + 257
}

// b'' from its region.
pub fn put_b_double_prime(
    params: EnvironmentParameters,
    regions: Regions,
    scratch: &[u32],
    output: &mut [u32],
    at: usize,
) -> usize
    requires { Placed params regions scratch.now × SectionsRoom at (b''_in (parameters_of params) regions scratch.now ∷ []) output.old }
    ensures { Put at result output.old output.new (b''_in (parameters_of params) regions scratch.now ∷ []) }
{
    let count = 64 * params.const_agg_length;
    put_section(output, at, scratch, regions.b2, count);
    at + 1 + count
}
