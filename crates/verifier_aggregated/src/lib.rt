// The verifier's check of the aggregated relation (verifier.rs): 27.
#![tactic(auto)]

ghost use Rattle.std.specs.Prelude.{◌≡◌};
ghost use Rattle.spec_leaves.specs.Answer.{of_checked};
ghost use Rattle.core_workspace.specs.Ready.{Ready};
ghost use Rattle.verifier_common.specs.Answers.{relation};
ghost use Rattle.verifier_aggregated.specs.Held.{Multiplied};

use layout_regions::Regions;
use layout_sizes::names;
use ring_inner_product::Strided;
use spec_leaves::answers::{FailedCheck, Rejection};
use verifier_common::equal;
use verifier_common::exchange::Exchange;

// "27 twice Σ a_ij·g_ij plus Σ h_ii is not twice the aggregated b."
pub fn check_relation(
    exchange: &Exchange<'_>,
    regions: Regions,
    scratch: &[u32],
) -> Result<(), Rejection>
    requires { Ready exchange.now.job.now exchange.now.params regions scratch.now × Multiplied exchange.now.job.now exchange.now.randomness.now regions scratch.now }
    ensures { of_checked result ≡ relation exchange.now.job.now exchange.now.randomness.now exchange.now.transcript.now }
{
    let params = exchange.params;
    let g_at = exchange.transcript_at(names::G);
    let h_at = exchange.transcript_at(names::H);
    let r = params.multiplicity;
    let products = ring_rq_matrix::sum_of_products(
        scratch,
        regions.a_or_h,
        exchange.transcript,
        g_at,
        r,
    );
    let diagonal = ring_rq_matrix::diagonal_sum(exchange.transcript, h_at, r);
    let constraints = Strided {
        at: exchange.job_at(names::RING_B),
        step: 64,
        count: params.constraint_k,
    };
    let alpha = exchange.randomness_at(names::ALPHA);
    let beta = exchange.randomness_at(names::BETA);
    let aggregated = Strided {
        at: exchange.transcript_at(names::B_DOUBLE_PRIME),
        step: 64,
        count: params.const_agg_length,
    };
    let b = core_aggregate::mix(
        exchange.job,
        constraints,
        exchange.randomness,
        alpha,
        beta,
        exchange.transcript,
        aggregated,
    );
    let twice = products.add(products);
    let left = twice.add(diagonal);
    if equal::same(left, b.add(b)) {
        Ok(())
    } else {
        Err(Rejection::Failed(FailedCheck::Relation))
    }
}
