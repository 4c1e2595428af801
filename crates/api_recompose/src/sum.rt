// Digits put together.
ghost use Rattle.std.specs.Prelude.{◌≡◌};
ghost use Rattle.spec_leaves.specs.Recompose.{recompose};

use ring_zq::zq::Zq;

// The sum of the digits with their weights, lowest first: each weight is the one before times the base.
pub fn recompose(base: u32, digits: &[u32]) -> Zq
    ensures { result.0 ≡ recompose base digits.now }
{
    let mut sum = Zq::ZERO;
    let mut power = Zq::ONE;
    for digit in digits {
        sum = sum.add(Zq(*digit).mul(power));
        power = power.mul(Zq(base));
    }
    sum
}
