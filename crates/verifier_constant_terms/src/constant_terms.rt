// The constant terms of what the prover sends: check 22.
ghost use Rattle.std.specs.Prelude.{◌≡◌, ◌+◌, ◌≤◌, length};
ghost use Rattle.spec_leaves.specs.Answer.{of_checked};
ghost use Rattle.verifier_common.specs.Answers.{constant_terms};
ghost use Rattle.verifier_constant_terms.specs.Terms.{constant_term};

use crate::numbers;
use layout_sizes::names;
use ring_rq_product::product;
use spec_leaves::answers::{FailedCheck, Rejection};
use verifier_common::exchange::Exchange;

// Σ psi[l]·b0[l] + Σ omega[j]·p[j], of a row of psi and one of omega.
pub fn constant_term(
    job: &[u32],
    b0: usize,
    l: usize,
    randomness: &[u32],
    psi: usize,
    omega: usize,
    transcript: &[u32],
    projection: usize,
) -> u32
    requires l_in_bounds { (b0 + l ≤ length job.now) × (psi + l ≤ length randomness.now) × (omega + 256 ≤ length randomness.now) }
    requires projection_in_bounds { (projection + 256 ≤ length transcript.now) × (l ≤ 64) }
    ensures { result ≡ constant_term job.now b0 l randomness.now psi omega transcript.now projection }
{
    let first = numbers::add_products(0, randomness, psi, job, b0, l);
    let total = numbers::add_products(first, randomness, omega, transcript, projection, 256);
    (total % product::MODULUS) as u32
}

// "22 for some k below" L, "the constant coefficient of b''_k is not Σ psi[k][l]·b0[l] + Σ omega[k][j]·p[j] (lowest k, both values)."
pub fn check_constant_terms(exchange: &Exchange<'_>) -> Result<(), Rejection>
    ensures { of_checked result ≡ constant_terms exchange.now.job.now exchange.now.randomness.now exchange.now.transcript.now }
{
    let b0 = exchange.job_at(names::CONSTANT_B);
    let l = exchange.params.constraint_l;
    let psi = exchange.randomness_at(names::PSI);
    let omega = exchange.randomness_at(names::OMEGA);
    let projection = exchange.transcript_at(names::P);
    let at = exchange.transcript_at(names::B_DOUBLE_PRIME);
    for k in 0..exchange.params.const_agg_length {
        let sent = exchange.transcript[at + 64 * k];
        let computed = constant_term(
            exchange.job,
            b0,
            l,
            exchange.randomness,
            psi + k * l,
            omega + k * 256,
            exchange.transcript,
            projection,
        );
        if sent != computed {
            return Err(Rejection::Failed(FailedCheck::B0Mismatch {
                index: k,
                sent,
                computed,
            }));
        }
    }
    Ok(())
}
