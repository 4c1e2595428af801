// The norm bounds of the commitments: of the vectors that A commits to, and of the digits that B, C and D do.
// A slice is passed whole with the place of its run: contracts speak of places in the whole slice, and a struct of the two would be built anew at each call.
ghost use Rattle.std.specs.Prelude.{◌≡◌, ◌+◌, ◌*◌, ◌≤◌, ◌<◌, leb, length};
ghost use Rattle.spec_leaves.specs.Answer.{of_result};
ghost use Rattle.spec_protocol.specs.Checks.{first};
ghost use Rattle.spec_protocol.specs.Formulas.{norm_of};
ghost use Rattle.commitments_outer.specs.Cells.{digits_at, vector_norm, Cells};

use commitments_outer::outer_commitments::Digits;
use ring_digit_norms::norm;
use spec_leaves::answers::Refusal;

// 13: the first of r vectors of n elements whose norm is above the bound.
pub fn check_witness(
    witness: &[u32],
    at: usize,
    n: usize,
    r: usize,
    bound: u128,
) -> Result<(), Refusal>
    requires { at + 64 * (r * n) ≤ length witness.now }
    ensures { of_result result ≡ first r (vector_norm witness.now at n bound) }
{
    let mut place = at;
    for i in 0..r {
        if norm::elements_norm(witness, place, n) > bound {
            return Err(Refusal::WitnessNorm(i));
        }
        place += 64 * n;
    }
    Ok(())
}

// 14 to 16: the digits of cells against a bound.
pub fn digits_within(from: &[u32], d: Digits, base: u32, bound: u128) -> bool
    requires { Cells from.now d × (1 < base) }
    ensures { result ≡ leb (norm_of (digits_at from.now d base)) bound }
{
    norm::digits_norm(from, d.at, d.cells, base, d.parts).norm <= bound
}
