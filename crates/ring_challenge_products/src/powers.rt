// The powers of X of which elements with few small coefficients are the sums, as places in the list that `products` makes of an element.
// A slice is passed whole with the place of its run: contracts speak of places in the whole slice, and a struct of the two would be built anew at each call.
ghost use Rattle.std.specs.Prelude.{◌≡◌, cond, ◌+◌, ◌*◌, ◌≤◌, ◌<◌, eqb, length};
ghost use Rattle.spec_leaves.specs.Zq.{is_larger_than_half, size};
ghost use Rattle.ring_challenge_products.specs.Powers.{place, taken, Sparse, AllSparse, RowOf, PowersOf};

use ring_rq::rq::Rq;
use ring_zq::zq::Zq;

// The place of the zeros.
const ZEROS: u32 = 192;

// The place of 1 or −1.
fn first(v: u32) -> u32
    ensures { (result ≡ cond (is_larger_than_half v) 128 64) × (64 ≤ result) × (result ≤ 128) }
{
    if Zq(v).is_larger_than_half() { 128 } else { 64 }
}

// How much further on the entries are doubled, where the size is 2.
fn twice(v: u32) -> u32
    ensures { (result ≡ cond (eqb (size v) 2) 256 0) × (result ≤ 256) }
{
    if Zq(v).size() == 2 { 256 } else { 0 }
}

// The place of v·X^j.
fn place(v: u32, j: u32) -> u32
    requires { j < 64 }
    ensures { (result ≡ place v j) × (result ≤ 384) }
{
    if v == 0 {
        ZEROS
    } else {
        first(v) - j + twice(v)
    }
}

// 1 for a coefficient that is not 0.
fn taken(v: u32) -> usize
    ensures { result ≡ taken v }
{
    if v == 0 { 0 } else { 1 }
}

// The places of an element's terms, one after the other, and then that of the zeros. What is stored for a coefficient 0 is that too.
fn row(a: [u32; 64]) -> [u32; 64]
    requires { Sparse a }
    ensures { RowOf result a }
{
    let mut out = [ZEROS; 64];
    let mut count = 0;
    for j in 0..64 {
        out[count] = place(a[j], j as u32);
        count += taken(a[j]);
    }
    out
}

// The places of r elements, in rows of 64 words.
pub fn store(c: &[u32], at: usize, r: usize, powers: &mut [u32])
    requires { AllSparse c.now at r × (at + 64 * r ≤ length c.now) × (64 * r ≤ length powers.old) }
    ensures { PowersOf powers.new c.now at r × (length powers.new ≡ length powers.old) }
{
    for i in 0..r {
        let a = ring_words::load(c, at + 64 * i).coeffs;
        ring_words::store(powers, 64 * i, Rq { coeffs: row(a) });
    }
}
