// The words of a test load, drawn one after the other (document 02, Item 1).
#![tactic(auto)]

ghost use Rattle.std.specs.Prelude.{◌≡◌, ◌∷◌, ◌+◌, ◌≤◌, ◌<◌, ◌^◌, length};
ghost use Rattle.math.specs.lists.Part.{splice};
ghost use Rattle.spec_protocol.specs.Layout as L;
ghost use Rattle.spec_protocol.specs.Load.{words_by, state_by, drawn, after};
ghost use Rattle.spec_protocol.specs.Load as S;
ghost use Rattle.layout_sections.specs.Sections.{listed};
ghost use Rattle.load_draw.specs.Rules.{rule_of, step, value_by, rules_of};

use layout_sections::sections::Section;
use ring_zq::zq::Zq;

// How the words of a section come about.
#[derive(Clone, Copy)]
pub enum Rule {
    // the state, 0 where that is not below Q
    Word,
    // the state's top bit
    Sign,
    // the state modulo 3, less 1
    Ternary,
    // not drawn: zero, to be worked out
    Later,
}

// "state·1664525+1013904223 modulo 2^32"
fn next(state: u32) -> u32
    ensures { result ≡ S.next state }
{
    ((state as u64 * 1664525 + 1013904223) % 4294967296) as u32
}

// "a word equal to Q is written as 0 while the state keeps it"
#[tactic(auto, using(std::proofs::lemmas::Bool::Decides::nat_tests), unfolding(spec_protocol::specs::Load::word))]
fn word(state: u32) -> u32
    ensures { result ≡ S.word state }
{
    if state < Zq::Q { state } else { 0 }
}

// "sign words take the state's top bit"
fn sign(state: u32) -> u32
    ensures { result ≡ S.sign state }
{
    state / 2147483648
}

// Q as a u64.
const MODULUS: u64 = Zq::Q as u64;

// −1 modulo Q.
const MINUS_ONE: u64 = MODULUS - 1;

// "Witness words are the draw modulo 3, less 1."
fn ternary(state: u32) -> u32
    ensures { result ≡ S.ternary state }
{
    (((state % 3) as u64 + MINUS_ONE) % MODULUS) as u32
}

// A kind and not a closure: the rules of a slice's sections stand in one array.
impl Rule {
    // The state before the next word.
    fn advance(self, state: u32) -> u32
        ensures { result ≡ step (rule_of self) state }
    {
        match self {
            Rule::Word | Rule::Sign | Rule::Ternary => next(state),
            Rule::Later => state,
        }
    }

    // The word that a state gives.
    fn word_at(self, state: u32) -> u32
        ensures { result ≡ value_by (rule_of self) state }
    {
        match self {
            Rule::Word => word(state),
            Rule::Sign => sign(state),
            Rule::Ternary => ternary(state),
            Rule::Later => 0,
        }
    }
}

// `count` words from `at` on; the state after them.
fn fill(out: &mut [u32], at: usize, count: usize, rule: Rule, state: u32) -> u32
    requires { at + count ≤ length out.old }
    ensures { (out.new ≡ splice out.old at (words_by (rule_of rule) state count)) × (result ≡ state_by (rule_of rule) state count) }
{
    let mut x = state;
    for k in 0..count {
        let reached = rule.advance(x);
        out[at + k] = rule.word_at(reached);
        x = reached;
    }
    x
}

// A section: its count, then its words.
fn section(out: &mut [u32], at: usize, count: usize, rule: Rule, state: u32) -> u32
    requires { (at + 1 + count ≤ length out.old) × (count < 2 ^ 32) }
    ensures { (out.new ≡ splice out.old at (count ∷ words_by (rule_of rule) state count)) × (result ≡ state_by (rule_of rule) state count) }
{
    out[at] = count as u32;
    fill(out, at + 1, count, rule, state)
}

// All sections, one after the other, each by its rule; the state after them.
pub fn sections<const N: usize>(
    out: &mut [u32],
    at: usize,
    sections: &[Section; N],
    rules: &[Rule; N],
    state: u32,
) -> u32
    requires { (at + L.span (listed sections.now) ≤ length out.old) × (L.span (listed sections.now) < 2 ^ 32) }
    ensures { (out.new ≡ splice out.old at (L.sections (drawn state (rules_of rules.now) (listed sections.now)))) × (result ≡ after state (rules_of rules.now) (listed sections.now)) }
{
    let mut x = state;
    let mut place = at;
    for m in 0..N {
        let count = sections[m].count;
        x = section(out, place, count, rules[m], x);
        place += 1 + count;
    }
    x
}
