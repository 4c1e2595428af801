// The digits of what the prover sends, taken once for check 23, for 14 to 16 and for the number that an acceptance states (document 02, Item 5).
#![tactic(auto)]

ghost use Rattle.relation_env_params.specs.Parameters.{parameters_of};
ghost use Rattle.verifier_common.specs.Work.{Received};
ghost use Rattle.verifier_digits.specs.Taken.{Taken};

use layout_sizes::{names, offsets, slices};
use relation_env_params::env_params::EnvironmentParameters;
use ring_digit_norms::{norm, parts};

// The sum of check 23, whether the digits of t, g and h are within the bounds of B, C and D, and how many cells have something left.
#[derive(Clone, Copy)]
pub struct SentDigits {
    pub sum: u128,
    pub t_within: bool,
    pub g_within: bool,
    pub h_within: bool,
    pub cells_left: usize,
}

// What is found of the digits of a transcript.
pub fn take(transcript: &[u32], params: EnvironmentParameters) -> SentDigits
    requires { Received transcript.now params }
    ensures { Taken (parameters_of params) transcript.now result }
{
    let cells = slices::triangle(params.multiplicity);
    let z = parts::two_parts_norm(
        transcript,
        offsets::of_transcript(params, names::Z),
        params.rank,
        params.b,
    );
    let t = norm::digits_norm(
        transcript,
        offsets::of_transcript(params, names::T),
        params.multiplicity * params.kappa,
        params.b,
        params.t_1,
    );
    let g = norm::digits_norm(
        transcript,
        offsets::of_transcript(params, names::G),
        cells,
        params.b,
        params.t_2,
    );
    let h = norm::digits_norm(
        transcript,
        offsets::of_transcript(params, names::H),
        cells,
        params.b,
        params.t_1,
    );
    let sum = z + t.norm + g.norm + h.norm;
    SentDigits {
        sum,
        t_within: t.norm <= params.bound_b,
        g_within: g.norm <= params.bound_c,
        h_within: h.norm <= params.bound_d,
        cells_left: t.cells_left + g.cells_left + h.cells_left,
    }
}
