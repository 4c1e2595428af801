// The terms of 16 rows added to the sums of the columns for four k. The places of the rows' entries in the tables are worked out for 64 columns at a time; at a
// place stand the four sums, one for each k, that are added side by side.
ghost use Rattle.std.specs.Prelude.{◌≡◌, ◌+◌, ◌*◌, ◌/◌, ◌<◌, ◌≤◌, length};
ghost use Rattle.math.specs.lists.Table.{table};
ghost use Rattle.math.specs.lists.Part.{splice};
ghost use Rattle.spec_leaves.specs.Zq.{Q};
ghost use Rattle.core_jl_tables.specs.Pairs.{pair_number, four_place, biased, Added};
ghost use Rattle.core_jl_tables.specs.Tables.{biased_sum, terms_added, place_entry, Places, table_term, column_added, block_added, UpToQ};

use ring_zq::wide::wide_usize;
use spec_leaves::modulus;

// 2^31 added, modulo 2^32: the sums of columns are kept so.
pub fn biased(x: u32) -> u32
    ensures { result ≡ biased x }
{
    x.wrapping_add(2147483648)
}

// A sum that is kept so, with a term added. Without the 2^31 it has passed 32 bits where it is less than before; 2^32 is what Q lacks of it.
fn biased_add(sum: u32, term: u32) -> u32
    requires { term ≤ Q }
    ensures { result ≡ biased_sum sum term }
{
    let next = sum.wrapping_add(term);
    if biased(next) < biased(sum) {
        next.wrapping_add(modulus::LACK)
    } else {
        next
    }
}

// The upper two bits of a projection word, which fix its entry: they are a place, and what stands there is made by the entry of a word that has them (`core_jl_tables::pairs`).
fn entry_number(code: u32) -> u32
    ensures { (result ≡ code / 1073741824) × (result < 4) }
{
    code / 1073741824
}

// The number of the entries of two projection words.
fn pair_number(randomness: &[u32], at: usize, step: usize) -> u32
    requires { at + step < length randomness.now }
    ensures { (result ≡ pair_number randomness.now at step) × (result < 16) }
{
    entry_number(randomness[at]) + 4 * entry_number(randomness[at + step])
}

// The place in their table of the entries of four projection words, `step` words apart.
fn four_place(randomness: &[u32], at: usize, step: usize) -> u32
    requires { at + 3 * step < length randomness.now }
    ensures { result ≡ four_place randomness.now at step }
{
    let first = pair_number(randomness, at, step);
    let second = pair_number(randomness, at + 2 * step, step);
    4 * (first + 16 * second)
}

// The places of 64 columns and four rows, stored from `to` on.
fn four_places(randomness: &[u32], at: usize, step: usize, places: &mut [u32], to: usize)
    requires { (at + 63 + 3 * step < length randomness.now) × (to + 64 ≤ length places.old) }
    ensures { places.new ≡ splice places.old to (table 64 (λ w. four_place randomness.now (at + w) step)) }
{
    for w in 0..64 {
        places[to + w] = four_place(randomness, at + w, step);
    }
}

// The places of 64 columns and 16 rows.
fn row_places(randomness: &[u32], at: usize, step: usize, places: &mut [u32])
    requires { (at + 63 + 15 * step < length randomness.now) × (length places.old ≡ 256) }
    ensures { places.new ≡ table 256 (place_entry randomness.now at step) }
{
    for t in 0..4 {
        four_places(randomness, at + 4 * t * step, step, places, 64 * t);
    }
}

// A sum with what the four tables give for column w of 64 and one k added.
fn add_terms(tables: &[u32], places: &[u32], w: usize, k: usize, start: u32) -> u32
    requires { (length tables.now ≡ 4096) × Places places.now × (w < 64) × (k < 4) × UpToQ tables.now }
    ensures { result ≡ terms_added (table_term tables.now places.now w k) start 4 }
{
    let mut sum = start;
    for t in 0..4 {
        let place = 1024 * t + wide_usize(places[64 * t + w]);
        sum = biased_add(sum, tables[place + k]);
    }
    sum
}

// The four sums of a column, with what the tables give added.
fn add_column(tables: &[u32], places: &[u32], w: usize, sums: &mut [u32], at: usize)
    requires { (length tables.now ≡ 4096) × Places places.now × (w < 64) × (at + 4 ≤ length sums.old) × UpToQ tables.now }
    ensures { sums.new ≡ splice sums.old at (column_added sums.old at tables.now places.now w) }
{
    for k in 0..4 {
        sums[at + k] = add_terms(tables, places, w, k, sums[at + k]);
    }
}

// The sums of 64 columns, with what the tables give added.
fn add_block(tables: &[u32], places: &[u32], sums: &mut [u32], at: usize)
    requires { (length tables.now ≡ 4096) × Places places.now × (at + 256 ≤ length sums.old) × UpToQ tables.now }
    ensures { sums.new ≡ splice sums.old at (block_added sums.old at tables.now places.now) }
{
    for w in 0..64 {
        add_column(tables, places, w, sums, at + 4 * w);
    }
}

// What the tables give for 16 rows of n elements from `row_at` on added to the sums of their columns.
pub fn add_columns(randomness: &[u32], row_at: usize, n: usize, tables: &[u32], sums: &mut [u32])
    requires { (row_at + 16 * (64 * n) ≤ length randomness.now) × (length tables.now ≡ 4096) × (4 * (64 * n) ≤ length sums.old) × UpToQ tables.now }
    ensures { (length sums.new ≡ length sums.old) × Added randomness.now row_at (64 * n) tables.now sums.old sums.new }
{
    let width = 64 * n;
    let mut places = [0u32; 256];
    for m in 0..n {
        row_places(randomness, row_at + 64 * m, width, &mut places);
        add_block(tables, &places, sums, 256 * m);
    }
}
