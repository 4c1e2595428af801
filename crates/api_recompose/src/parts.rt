// The number of parts that a base needs.
ghost use Rattle.std.specs.Prelude.{◌≡◌, ◌<◌, ◌≤◌};
ghost use Rattle.spec_leaves.specs.Recompose.{PartsNeeded};

use spec_leaves::modulus;

// The greatest size of a value.
const GREATEST: u64 = modulus::HALF as u64;

// The smallest number of parts that leaves nothing of any value; 0 for a base that has no digits. `reach` is the greatest size of which
// `parts` digits leave nothing, and `GREATEST` the greatest size of a value.
pub fn parts_needed(base: u32) -> u32
    ensures parts_needed { 2 ≤ base → PartsNeeded base result }
    ensures value { base < 2 → result ≡ 0 }
{
    if base < 2 {
        return 0;
    }
    // The loop ends at a reach, and counts its turns: there is no range or slice to run through.
    let mut reach: u64 = 0;
    let mut parts: u32 = 0;
    while reach < GREATEST {
        reach = reach * (base as u64) + (base / 2) as u64;
        parts += 1;
    }
    parts
}
