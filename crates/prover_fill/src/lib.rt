// What the prover works out into the scratch, with the refusals 13 to 16: b'', h and the challenges after t and g.
#![tactic(auto)]

pub mod phi_and_b;

ghost use Rattle.std.specs.Prelude.{◌≡◌, OnOk};
ghost use Rattle.spec_leaves.specs.Answer.{of_result};
ghost use Rattle.spec_protocol.specs.Parameters.{parameters};
ghost use Rattle.spec_protocol.specs.Layout.{scratch_need};
ghost use Rattle.spec_protocol.specs.Prover.{round₃, round₄, round₅};
ghost use Rattle.admission_slices.specs.Admission.{call_of};
ghost use Rattle.admission_slices.specs.declared.calls.Call.TheVariants as C;
ghost use Rattle.core_workspace.specs.Ready.{Drawn};
ghost use Rattle.core_workspace.specs.Holds.{Holds, Unchanged};
ghost use Rattle.core_workspace.specs.Aggregated.{φ''_words};
ghost use Rattle.prover_commit.specs.Refusals.{work, h_check};
ghost use Rattle.prover_commit.specs.Work.{WorkGiven, Filled, ReadyForH, with_h};
ghost use Rattle.prover_fill.specs.Stored.{weighed_with_h, MadeWith, last_call};

use admission_slices::calls::Call;
use core_aggregate;
use core_garbage_polynomials::h;
use core_workspace;
use layout_regions::Regions;
use prover_commit::{check_triangle, commit, plain_is_faster};
use relation_env_params::env_params::EnvironmentParameters;
use spec_leaves::answers::Refusal;

// Round 3: "b''_k = Σ a''_k,ij·⟨s_i,s_j⟩ + Σ⟨φ''_k,i,s_i⟩" after t and g.
fn commit_with_b_double_prime(
    job: &[u32],
    randomness: &[u32],
    witness: &[u32],
    params: EnvironmentParameters,
    regions: Regions,
    scratch: &mut [u32],
) -> Result<(), Refusal>
    requires { WorkGiven job.now witness.now params regions scratch.old × Drawn 3 job.now randomness.now }
    ensures result_value { of_result result ≡ work job.now randomness.now witness.now round₃ }
    ensures unchanged { Unchanged (scratch_need (parameters job.now)) scratch.old scratch.new }
    ensures made { OnOk result (Filled job.now randomness.now witness.now regions scratch.new C.Round3) }
{
    commit(job, witness, params, regions, scratch)?;
    core_workspace::double_prime(job, randomness, params, regions, scratch);
    core_aggregate::b_double_prime(
        scratch,
        regions.a2,
        regions.g,
        regions.phi2,
        params.multiplicity,
        params.rank,
        witness,
        1,
        params.const_agg_length,
        regions.b2,
    );
    Ok(())
}

// "h_ij = ⟨φ_i,s_j⟩+⟨φ_j,s_i⟩, not halved", by the faster way; the NTT forms stand where φ'' and a'' stood.
fn compute_h(witness: &[u32], params: EnvironmentParameters, regions: Regions, scratch: &mut [u32])
    requires { ReadyForH witness.now params regions scratch.old }
    ensures { Unchanged regions.phi (with_h witness.now params regions scratch.old) scratch.new }
{
    if plain_is_faster(params.rank, params.multiplicity) {
        h::compute_h(
            witness,
            1,
            params.multiplicity,
            params.rank,
            scratch,
            regions.phi,
            regions.a_or_h,
        );
    } else {
        core_garbage_ntt::h::compute_h(
            witness,
            1,
            params.multiplicity,
            params.rank,
            scratch,
            regions.phi2,
            regions.a2,
            regions.phi,
            regions.a_or_h,
        );
    }
}

// h, with 16. Not inlined: its buffers lie beside those of φ and φ'', and not above them.
#[inline(never)]
fn add_h(
    witness: &[u32],
    params: EnvironmentParameters,
    regions: Regions,
    scratch: &mut [u32],
) -> Result<(), Refusal>
    requires { ReadyForH witness.now params regions scratch.old }
    ensures result_value { of_result result ≡ h_check params regions scratch.new }
    ensures unchanged { Unchanged regions.phi (with_h witness.now params regions scratch.old) scratch.new }
{
    compute_h(witness, params, regions, scratch);
    check_triangle(
        params,
        regions.a_or_h,
        params.t_1,
        params.bound_d,
        Refusal::DigitsOfH,
        scratch,
    )
}

// φ, with b'' where it is asked for, and then h.
fn weigh(
    job: &[u32],
    randomness: &[u32],
    witness: &[u32],
    params: EnvironmentParameters,
    regions: Regions,
    scratch: &mut [u32],
    with_b: bool,
) -> Result<(), Refusal>
    requires { WorkGiven job.now witness.now params regions scratch.old × Drawn 5 job.now randomness.now × Holds scratch.old regions.phi2 (φ''_words job.now randomness.now) }
    ensures result_value { of_result result ≡ h_check params regions scratch.new }
    ensures unchanged { Unchanged regions.phi (weighed_with_h with_b job.now randomness.now witness.now params regions scratch.old)
        scratch.new }
{
    phi_and_b::phi_and_b(job, randomness, witness, params, regions, scratch, with_b);
    add_h(witness, params, regions, scratch)
}

// Round 4: h after φ, and with them b'' where the whole call asks for it: "Prover: 13, 14, 15, 16."
fn commit_with_h(
    job: &[u32],
    randomness: &[u32],
    witness: &[u32],
    params: EnvironmentParameters,
    regions: Regions,
    scratch: &mut [u32],
    with_b: bool,
) -> Result<(), Refusal>
    requires { WorkGiven job.now witness.now params regions scratch.old × Drawn 5 job.now randomness.now }
    ensures result_value { of_result result ≡ work job.now randomness.now witness.now round₄ }
    ensures unchanged { Unchanged (scratch_need (parameters job.now)) scratch.old scratch.new }
    ensures made { OnOk result (MadeWith with_b job.now randomness.now witness.now regions scratch.new) }
{
    commit(job, witness, params, regions, scratch)?;
    core_workspace::double_prime(job, randomness, params, regions, scratch);
    weigh(job, randomness, witness, params, regions, scratch, with_b)
}

// Round 5, and the whole call with b'': the challenges after h.
fn commit_with_challenges(
    job: &[u32],
    randomness: &[u32],
    witness: &[u32],
    params: EnvironmentParameters,
    regions: Regions,
    scratch: &mut [u32],
    with_b: bool,
) -> Result<(), Refusal>
    requires { WorkGiven job.now witness.now params regions scratch.old × Drawn 7 job.now randomness.now }
    ensures result_value { of_result result ≡ work job.now randomness.now witness.now round₅ }
    ensures unchanged { Unchanged (scratch_need (parameters job.now)) scratch.old scratch.new }
    ensures made { OnOk result (Filled job.now randomness.now witness.now regions scratch.new (last_call with_b)) }
{
    commit_with_h(job, randomness, witness, params, regions, scratch, with_b)?;
    core_workspace::generate_challenges(randomness, params, regions, scratch);
    Ok(())
}

// All that the sections of a call are made of.
// A match: which call is asked for comes in as a value, and closures would be chosen by the same arms.
pub fn fill(
    call: Call,
    job: &[u32],
    randomness: &[u32],
    witness: &[u32],
    params: EnvironmentParameters,
    regions: Regions,
    scratch: &mut [u32],
) -> Result<(), Refusal>
    requires { WorkGiven job.now witness.now params regions scratch.old × Drawn (call_of call).handed job.now randomness.now }
    ensures result_value { of_result result ≡ work job.now randomness.now witness.now (call_of call) }
    ensures unchanged { Unchanged (scratch_need (parameters job.now)) scratch.old scratch.new }
    ensures made { OnOk result (Filled job.now randomness.now witness.now regions scratch.new call) }
{
    match call {
        Call::Whole => commit_with_challenges(
            job, randomness, witness, params, regions, scratch, true,
        ),
        Call::Round1 => commit(job, witness, params, regions, scratch),
        Call::Round2 => commit(job, witness, params, regions, scratch),
        Call::Round3 => commit_with_b_double_prime(
            job, randomness, witness, params, regions, scratch,
        ),
        Call::Round4 => commit_with_h(job, randomness, witness, params, regions, scratch, false),
        Call::Round5 => commit_with_challenges(
            job, randomness, witness, params, regions, scratch, false,
        ),
    }
}
