// Σ⟨φ_i,z⟩·c_i of check 26: of φ, or of the constraints without it.
ghost use Rattle.std.specs.Prelude.{◌≡◌};
ghost use Rattle.math.specs.lists.Part.{splice};
ghost use Rattle.spec_leaves.specs.Ring.{words};
ghost use Rattle.spec_protocol.specs.Parameters.{parameters};
ghost use Rattle.spec_protocol.specs.Layout.{scratch_need};
ghost use Rattle.core_workspace.specs.Ready.{Ready};
ghost use Rattle.core_workspace.specs.Holds.{Unchanged};
ghost use Rattle.core_workspace.specs.Aggregated.{φ_words};
ghost use Rattle.verifier_relations.specs.Held.{Prepared, Aggregable};
ghost use Rattle.verifier_relations.specs.Weighed.{φ_lines};

use core_challenge_sums;
use core_workspace;
use layout_regions::Regions;
use layout_sizes::names;
use ring_inner_product::Strided;
use ring_rq::rq::Rq;
use ring_rq_matrix;
use verifier_common::exchange::Exchange;

// Of φ, which is made in its region.
pub fn by_phi(exchange: &Exchange<'_>, regions: Regions, scratch: &mut [u32]) -> Rq
    requires { Ready exchange.now.job.now exchange.now.params regions scratch.old × Aggregable exchange.now.job.now exchange.now.randomness.now regions scratch.old }
    ensures coeffs_value { result.coeffs ≡ words (φ_lines exchange.now.job.now exchange.now.randomness.now exchange.now.transcript.now) }
    ensures scratch_after { scratch.new ≡ splice scratch.old regions.phi (φ_words exchange.now.job.now exchange.now.randomness.now) }
{
    let params = exchange.params;
    core_workspace::phi(exchange.job, exchange.randomness, params, regions, scratch);
    let z_at = exchange.transcript_at(names::Z);
    ring_rq_matrix::sum_of_lines(
        scratch,
        regions.phi,
        exchange.transcript,
        z_at,
        scratch,
        regions.challenges,
        params.multiplicity,
        params.rank,
    )
}

// Of the constraints.
pub fn by_constraints(exchange: &Exchange<'_>, regions: Regions, scratch: &[u32]) -> Rq
    requires { Ready exchange.now.job.now exchange.now.params regions scratch.now × Aggregable exchange.now.job.now exchange.now.randomness.now regions scratch.now }
    ensures { result.coeffs ≡ words (φ_lines exchange.now.job.now exchange.now.randomness.now exchange.now.transcript.now) }
{
    let params = exchange.params;
    let step = 64 * (params.multiplicity * params.rank);
    let constraints = Strided {
        at: exchange.job_at(names::RING_PHI),
        step,
        count: params.constraint_k,
    };
    let aggregated = Strided {
        at: regions.phi2,
        step,
        count: params.const_agg_length,
    };
    core_challenge_sums::sum_of_lines(
        exchange.job,
        constraints,
        exchange.randomness,
        exchange.randomness_at(names::ALPHA),
        exchange.randomness_at(names::BETA),
        scratch,
        aggregated,
        params.multiplicity,
        params.rank,
        regions.challenges,
        exchange.transcript,
        exchange.transcript_at(names::Z),
    )
}

// By the way that costs less: from three vectors on the sums over the vectors cost less than their transforms.
pub fn sum_of_lines(exchange: &Exchange<'_>, regions: Regions, scratch: &mut [u32]) -> Rq
    requires { Ready exchange.now.job.now exchange.now.params regions scratch.old × Aggregable exchange.now.job.now exchange.now.randomness.now regions scratch.old }
    ensures coeffs_value { result.coeffs ≡ words (φ_lines exchange.now.job.now exchange.now.randomness.now exchange.now.transcript.now) }
    ensures unchanged { Unchanged (scratch_need (parameters exchange.now.job.now)) scratch.old scratch.new }
    ensures prepared { Prepared exchange.now.job.now exchange.now.randomness.now regions scratch.new }
{
    if exchange.params.multiplicity < 3 {
        by_phi(exchange, regions, scratch)
    } else {
        by_constraints(exchange, regions, scratch)
    }
}
