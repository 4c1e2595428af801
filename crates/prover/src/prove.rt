// The prover's calls on whole slices, for every input.
ghost use Rattle.std.specs.Prelude.{◌≡◌, length};
ghost use Rattle.spec_leaves.specs.Answer.{of_result};
ghost use Rattle.spec_protocol.specs.Parameters.{parameters};
ghost use Rattle.spec_protocol.specs.Layout.{scratch_need};
ghost use Rattle.spec_protocol.specs.Prover.{zeroed};
ghost use Rattle.admission_slices.specs.Admission.{call_of, Provable};
ghost use Rattle.prover_commit.specs.Refusals.{work};
ghost use Rattle.prover.specs.Worked.{worked};
ghost use Rattle.prover.specs.Proves.{Proves};

use admission_order::prover;
use admission_slices::calls;
use admission_slices::calls::Call;
use layout_sizes::buffers;
use relation_env_params::env_params::EnvironmentParameters;
use spec_leaves::answers::Refusal;

// The work of a call that is refused nothing before it: "After any later answer scratch is zero to the length needed; after 13 to 16 the output's
// needed part is zero too."
fn work_and_clear(
    call: Call,
    job: &[u32],
    randomness: &[u32],
    witness: &[u32],
    params: EnvironmentParameters,
    scratch: &mut [u32],
    output: &mut [u32],
) -> Result<(), Refusal>
    requires { Provable (call_of call) job.now randomness.now witness.now (length scratch.old) (length output.old) params }
    ensures result_value { of_result result ≡ work job.now randomness.now witness.now (call_of call) }
    ensures output_after { output.new ≡ worked (call_of call) job.now randomness.now witness.now output.old }
    ensures scratch_after { scratch.new ≡ zeroed (scratch_need (parameters job.now)) scratch.old }
{
    let regions = layout_regions::lay_out(
        params.rank,
        params.multiplicity,
        params.kappa,
        params.const_agg_length,
    );
    let need = buffers::scratch_length(params);
    match prover_fill::fill(call, job, randomness, witness, params, regions, scratch) {
        Ok(()) => {
            prover_sections::put(
                call, job, randomness, witness, params, regions, scratch, output,
            );
            ring_words::clear(scratch, need);
            Ok(())
        }
        Err(refusal) => {
            let sections = calls::makes(call);
            let length = buffers::output_length(params, sections.from, sections.makes);
            ring_words::clear(output, length);
            let used = need;
            ring_words::clear(scratch, used);
            Err(refusal)
        }
    }
}

// A call of the prover: its answer, output and scratch.
pub fn prove(
    call: Call,
    job: &[u32],
    randomness: &[u32],
    witness: &[u32],
    scratch: &mut [u32],
    output: &mut [u32],
) -> Result<(), Refusal>
    ensures { Proves call job.now randomness.now witness.now scratch.old output.old scratch.new output.new result }
{
    let params = prover::admit(call, job, randomness, witness, scratch.len(), output.len())?;
    work_and_clear(call, job, randomness, witness, params, scratch, output)
}
