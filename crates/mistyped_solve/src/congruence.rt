// Congruences factor·x = value modulo Q in one unknown. Where Q is composite, a factor without an inverse may still have solutions.
ghost use Rattle.spec_leaves.specs.Zq.{Canonical};
ghost use Rattle.mistyped_solve.specs.Congruence.{Solves, Reduced, Combines, Found};

use ring_zq::zq::Zq;

// factor·x is the value modulo Q.
#[derive(Clone, Copy)]
pub struct Congruence {
    pub factor: u32,
    pub value: u32,
}

// Two congruences as one, the first with a factor that divides Q: Euclid's algorithm on the factors, with the values carried along.
// None where no number solves both.
pub fn combine(first: Congruence, second: Congruence) -> Option<Congruence>
    requires { Reduced first × Canonical second.value }
    ensures { Combines first second result }
{
    let mut upper = second;
    let mut lower = first;
    while lower.factor != 0 {
        let times = Zq(upper.factor / lower.factor);
        let rest = Congruence {
            factor: upper.factor % lower.factor,
            value: Zq(upper.value).sub(times.mul(Zq(lower.value))).0,
        };
        upper = lower;
        lower = rest;
    }
    if lower.value != 0 {
        return None;
    }
    Some(upper)
}

// The solution of smallest centred size, if there is one: the least one, or the greatest one below Q.
#[tactic(auto, using(crate::proofs::Class::smallest_steps))]
pub fn smallest(c: Congruence) -> Option<u32>
    requires { Reduced c }
    ensures { Found (Solves c) result }
{
    let factor = c.factor;
    let value = c.value;
    if value % factor != 0 {
        return None;
    }
    let least = value / factor;
    let step = Zq::Q / factor;
    if least <= step - least {
        Some(least)
    } else {
        Some(Zq::Q - (step - least))
    }
}
