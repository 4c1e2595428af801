// The regions of the lent scratch: places in words, one region after the other from the scratch's first word on.
#![tactic(auto)]

ghost use Rattle.std.specs.Prelude.{◌≤◌};
ghost use Rattle.layout_regions.specs.Laid.{Laid};

use ring_rq_matrix::triangles;

#[derive(Clone, Copy)]
pub struct Regions {
    // φ'': L·r·n elements
    pub phi2: usize,
    // a'': L triangles
    pub a2: usize,
    // φ: r·n elements
    pub phi: usize,
    // a triangle: a in the verifier's work, h in the prover's
    pub a_or_h: usize,
    // g: a triangle
    pub g: usize,
    // r challenges
    pub challenges: usize,
    // t: r·κ elements
    pub t: usize,
    // u1 or u2, as the verifier works them out: 16 elements
    pub u: usize,
    // b'': 32 elements
    pub b2: usize,
}

// The regions for r vectors of n elements, κ rows of A and L aggregated equations.
pub fn lay_out(n: usize, r: usize, kappa: usize, l: usize) -> Regions
    requires { (n ≤ 64) × (r ≤ 16) × (kappa ≤ 16) × (l ≤ 32) }
    ensures { Laid n r kappa l result }
{
    let width = r * n;
    let cells = triangles::cells(r);
    let phi2 = 0;
    let a2 = phi2 + 64 * (l * width);
    let phi = a2 + 64 * (l * cells);
    let a_or_h = phi + 64 * width;
    let g = a_or_h + 64 * cells;
    let challenges = g + 64 * cells;
    let t = challenges + 64 * r;
    let u = t + 64 * (r * kappa);
    let b2 = u + 1024;
    Regions {
        phi2,
        a2,
        phi,
        a_or_h,
        g,
        challenges,
        t,
        u,
        b2,
    }
}
