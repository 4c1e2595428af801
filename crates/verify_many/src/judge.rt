// The checks of one transcript after the rows' products stand in its window of the scratch (document 02, Item 11).
ghost use Rattle.std.specs.Prelude.{◌≡◌, length};
ghost use Rattle.spec_leaves.specs.Answer.{◌then◌, of_checked, of_judged};
ghost use Rattle.spec_protocol.specs.Parameters.{parameters};
ghost use Rattle.spec_protocol.specs.Layout.{scratch_need};
ghost use Rattle.spec_protocol.specs.Mistyped.{verdict_of};
ghost use Rattle.spec_protocol.specs.Many.{row_count, RowsDone};
ghost use Rattle.relation_env_params.specs.Parameters.{parameters_of};
ghost use Rattle.admission_slices.specs.Admission.{Verifiable};
ghost use Rattle.core_workspace.specs.Ready.{Ready};
ghost use Rattle.core_workspace.specs.Holds.{Unchanged};
ghost use Rattle.verifier_common.specs.Answers.{az};
ghost use Rattle.verifier_digits.specs.Taken.{Taken, t_and_g_found, h_found};
ghost use Rattle.verifier_relations.specs.Held.{Challenged};
ghost use Rattle.verifier_relations.specs.Order.{relations};
ghost use Rattle.verifier.specs.Order.{rest};

use core_workspace;
use layout_regions::Regions;
use relation_env_params::env_params::EnvironmentParameters;
use spec_leaves::answers::Rejection;
use verifier_commitments::outer_commitments;
use verifier_common::exchange::Exchange;
use verifier_digits::SentDigits;
use verifier_norms::norm_checks;
use verifier_relations::relations;
use verify_many_checks;

// 24 to 27, in order, with what is found of 24.
fn check_relations(
    exchange: &Exchange<'_>,
    regions: Regions,
    window: &mut [u32],
    opened: Result<(), Rejection>,
) -> Result<(), Rejection>
    requires sent { Ready exchange.now.job.now exchange.now.params regions window.old × Challenged exchange.now.job.now exchange.now.randomness.now regions window.old }
    requires opened_value { of_checked opened ≡ az exchange.now.job.now exchange.now.randomness.now exchange.now.transcript.now }
    ensures result_value { of_checked result ≡ relations exchange.now.job.now exchange.now.randomness.now exchange.now.transcript.now }
    ensures unchanged { Unchanged (scratch_need (parameters exchange.now.job.now)) window.old window.new }
{
    opened?;
    relations::check_z_inner(exchange.transcript, exchange.params, regions, window)?;
    relations::check_aggregated(exchange, regions, window)
}

// 14, 15, 28, 16 and 29, in order, with what is found of the digits, of 28 and of 29.
fn check_commitments(
    digits: SentDigits,
    u1: Result<(), Rejection>,
    u2: Result<(), Rejection>,
) -> Result<(), Rejection>
    ensures { of_checked result ≡ (t_and_g_found digits then of_checked u1) then (h_found digits then of_checked u2) }
{
    outer_commitments::check_t_and_g(digits)?;
    u1?;
    outer_commitments::check_h(digits)?;
    u2
}

// The checks from 24 on, in order: 24, 28 and 29 from the products, before the scratch before them is used.
fn check_rest(
    exchange: &Exchange<'_>,
    regions: Regions,
    window: &mut [u32],
    digits: SentDigits,
) -> Result<(), Rejection>
    requires sent { Ready exchange.now.job.now exchange.now.params regions window.old × Taken (parameters_of exchange.now.params) exchange.now.transcript.now digits }
    requires rows_done { RowsDone exchange.now.job.now exchange.now.transcript.now window.old (row_count (parameters exchange.now.job.now)) }
    ensures result_value { of_checked result ≡ rest exchange.now.job.now exchange.now.randomness.now exchange.now.transcript.now }
    ensures unchanged { Unchanged (scratch_need (parameters exchange.now.job.now)) window.old window.new }
{
    let job = exchange.job;
    let transcript = exchange.transcript;
    let params = exchange.params;
    core_workspace::generate_challenges(exchange.randomness, params, regions, window);
    let opened = verify_many_checks::check_az(job, transcript, params, regions, window);
    let u1 = verify_many_checks::check_u1(job, transcript, params, window);
    let u2 = verify_many_checks::check_u2(job, transcript, params, window);
    check_relations(exchange, regions, window, opened)?;
    check_commitments(digits, u1, u2)
}

// All checks, in order; an acceptance has the number of cells with something left.
pub fn judge(
    job: &[u32],
    randomness: &[u32],
    transcript: &[u32],
    params: EnvironmentParameters,
    window: &mut [u32],
) -> Result<usize, Rejection>
    requires verifiable { Verifiable job.now randomness.now transcript.now (length window.old) params }
    requires window_len { length window.old ≡ scratch_need (parameters job.now) }
    requires rows_done { RowsDone job.now transcript.now window.old (row_count (parameters job.now)) }
    ensures result_value { of_judged result ≡ verdict_of job.now randomness.now transcript.now }
    ensures window_len_unchanged { length window.new ≡ length window.old }
{
    let exchange = Exchange {
        job,
        randomness,
        transcript,
        params,
    };
    let regions = layout_regions::lay_out(
        params.rank,
        params.multiplicity,
        params.kappa,
        params.const_agg_length,
    );
    let digits = norm_checks::check_norms(&exchange)?;
    check_rest(&exchange, regions, window, digits)?;
    Ok(digits.cells_left)
}
