// The accumulation of squared norms (`Norms` of ring/zq.rs).
ghost use Rattle.std.specs.Prelude.{◌≡◌, ◌+◌, ◌*◌, ◌^◌, ◌≤◌};

// The sum with the square of a size added.
#[tactic(auto, using(spec_leaves::proofs::Fits::product_max))]
pub fn add_square(sum: u128, size: u32) -> u128
    requires { sum + 2 ^ 64 ≤ 2 ^ 128 }
    ensures { (result ≡ sum + size * size) × (result ≤ sum + 2 ^ 64) }
{
    let square = u64::from(size) * u64::from(size);
    sum + u128::from(square)
}
