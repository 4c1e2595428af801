// The call that adds two p (document 02, Item 10), for every input.
#![tactic(auto)]

ghost use Rattle.std.specs.Prelude.{◌≡◌, ◌≤◌, length};
ghost use Rattle.spec_leaves.specs.Answer.{of_result};
ghost use Rattle.spec_sheds.specs.Runs.{p_section, stored, p_sum, add_refusal, add_output};
ghost use Rattle.shed_admission.specs.Found.{one_refusal};
ghost use Rattle.shed_sums.specs.Call.{AddCall};

use admission_buffers::output;
use admission_slices::slices::Slice;
use api_answers::verdicts::LabradorAnswer;
use ring_zq::zq::Zq;
use shed_admission::checks::check_section;
use spec_leaves::answers::Refusal;

// A p: 9 and 10.
fn check_p(words: &[u32]) -> Result<(), Refusal>
    ensures { of_result result ≡ one_refusal 9 10 256 words.now }
{
    check_section(Slice::Transcript, words, 256)
}

// "The adding call refuses by 9 and 10, the first p before the second, then by 2."
fn check(p: &[u32], other: &[u32], output: usize) -> Result<(), Refusal>
    ensures { of_result result ≡ add_refusal p.now other.now output }
{
    check_p(p)?;
    check_p(other)?;
    output::check_length(output, 257)
}

// The section of the sum, word by word.
fn put_sum(p: &[u32], other: &[u32], output: &mut [u32])
    requires { (257 ≤ length p.now) × (257 ≤ length other.now) × (257 ≤ length output.old) }
    ensures { output.new ≡ stored p_section (p_sum p.now other.now) output.old }
{
    output[0] = 256;
    for j in 0..256 {
        output[1 + j] = Zq(p[1 + j]).add(Zq(other[1 + j])).0;
    }
}

// The work of a call that is refused nothing.
fn try_add(p: &[u32], other: &[u32], output: &mut [u32]) -> Result<(), Refusal>
    ensures answer { of_result result ≡ add_refusal p.now other.now (length output.old) }
    ensures output_left { output.new ≡ add_output p.now other.now output.old }
{
    check(p, other, output.len())?;
    put_sum(p, other, output);
    Ok(())
}

// "another adds two such p"
pub fn add(p: &[u32], other: &[u32], output: &mut [u32]) -> LabradorAnswer
    ensures { AddCall p.now other.now output.old output.new result }
{
    LabradorAnswer::from(try_add(p, other, output))
}
