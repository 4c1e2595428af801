// Runs of elements in a lent slice.
// A slice is passed whole with the place of its run: contracts speak of places in the whole slice, and a struct of the two would be built anew at each call.
ghost use Rattle.std.specs.Prelude.{◌≡◌, ◌+◌, ◌*◌, ◌≤◌, length};
ghost use Rattle.math.specs.lists.Table.{table};
ghost use Rattle.math.specs.lists.Part.{splice};
ghost use Rattle.spec_leaves.specs.Ring.{RqOps};
ghost use Rattle.spec_protocol.specs.Formulas.{flat};

use ring_rq::rq::Rq;

// `count` elements from `at` on set to zero.
pub fn zero(out: &mut [u32], at: usize, count: usize)
    requires { at + 64 * count ≤ length out.old }
    ensures { out.new ≡ splice out.old at (flat (table count (λ k. RqOps.nil))) }
{
    let mut place = at;
    for k in 0..count {
        ring_words::store(out, place, Rq::zero());
        place += 64;
    }
}
