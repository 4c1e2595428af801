// The entries of the list of indexes at which check 22 can be mended (document 02, Item 8).
#![tactic(auto)]

ghost use Rattle.std.specs.Prelude.{◌≡◌, ◌+◌, ◌*◌, ◌≤◌, ◌<◌, length};
ghost use Rattle.verifier_common.specs.Work.{Sent};
ghost use Rattle.mistyped_entries.specs.Lacking.{lacking, all_lacking};
ghost use Rattle.mistyped_entries.specs.Entered.{entered_count, entered_list, Entered};

use layout_sizes::{names, offsets};
use mistyped_solve::{list, rows};
use relation_env_params::env_params::EnvironmentParameters;
use ring_zq::zq::Zq;
use verifier_constant_terms::constant_terms;

// What row k lacks: the constant coefficient of b''_k less Σ psi[k][l]·b0[l] + Σ omega[k][j]·p[j].
fn row_lacking(
    job: &[u32],
    randomness: &[u32],
    transcript: &[u32],
    params: EnvironmentParameters,
    k: usize,
) -> u32
    requires { Sent job.now randomness.now transcript.now params × (k < params.const_agg_length) }
    ensures { result ≡ lacking job.now randomness.now transcript.now k }
{
    let l = params.constraint_l;
    let b0 = offsets::of_job(params, names::CONSTANT_B);
    let psi = offsets::of_randomness(params, names::PSI);
    let omega = offsets::of_randomness(params, names::OMEGA);
    let projection = offsets::of_transcript(params, names::P);
    let at = offsets::of_transcript(params, names::B_DOUBLE_PRIME);
    let sent = transcript[at + 64 * k];
    let computed = constant_terms::constant_term(
        job,
        b0,
        l,
        randomness,
        psi + k * l,
        omega + k * 256,
        transcript,
        projection,
    );
    Zq(sent).sub(Zq(computed)).0
}

// What each row lacks.
fn rows_lacking(
    job: &[u32],
    randomness: &[u32],
    transcript: &[u32],
    params: EnvironmentParameters,
) -> [u32; 32]
    requires { Sent job.now randomness.now transcript.now params }
    ensures { result ≡ all_lacking job.now randomness.now transcript.now params.const_agg_length }
{
    let mut rows = [0u32; 32];
    for k in 0..params.const_agg_length {
        rows[k] = row_lacking(job, randomness, transcript, params, k);
    }
    rows
}

// What is found of an index put into the list; how many entries there are then.
fn enter(list: &mut [u32], count: usize, index: u32, found: Option<u32>) -> usize
    requires { 2 * count + 2 ≤ length list.old }
    ensures value { result ≡ entered_count found count }
    ensures list_after { list.new ≡ entered_list found index count list.old }
{
    match found {
        Some(number) => {
            list::insert(list, count, index, number);
            count + 1
        }
        None => count,
    }
}

// "lists each index l for which adding one number to b0[l] alone would let check 22 pass", each with the number of smallest centred size; how many there are.
pub fn enter_all(
    job: &[u32],
    randomness: &[u32],
    transcript: &[u32],
    params: EnvironmentParameters,
    list: &mut [u32],
) -> usize
    requires { Sent job.now randomness.now transcript.now params × (2 * params.constraint_l ≤ length list.old) }
    ensures { Entered job.now randomness.now transcript.now params.constraint_l list.old result list.new }
{
    let rows = rows_lacking(job, randomness, transcript, params);
    let psi = offsets::of_randomness(params, names::PSI);
    let l = params.constraint_l;
    let mut count = 0;
    for i in 0..l {
        let found = rows::smallest_for(randomness, psi + i, l, rows, params.const_agg_length);
        count = enter(list, count, i as u32, found);
    }
    count
}
