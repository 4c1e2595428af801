// The projection's entries (`generate_projections` of transcript/mod.rs). The leaf call, p and φ'' go by `by_entry`.
ghost use Rattle.std.specs.Prelude.{◌≡◌};
ghost use Rattle.spec_leaves.specs.Projection.{entry};
ghost use Rattle.transcript_words.specs.Entries.{by_entry};

use ring_zq::zq::Zq;

// One of three values, as the word's entry is −1, 1 or 0.
pub fn by_entry(word: u32, minus: u32, plus: u32, zero: u32) -> u32
    ensures { result ≡ by_entry word minus plus zero }
{
    match word {
        0..=1073741823 => minus,
        1073741824..=2147483647 => plus,
        _ => zero,
    }
}

// The entry that a projection word stands for.
pub fn projection_entry(word: u32) -> Zq
    ensures { result.0 ≡ entry word }
{
    Zq(by_entry(word, Zq::NEG_ONE.0, Zq::ONE.0, Zq::ZERO.0))
}
