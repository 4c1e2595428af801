// Tables of the sums of four rows' terms for four k, for each number of the rows' entries: the sums of two rows are worked out first.
ghost use Rattle.std.specs.Prelude.{◌≡◌, ◌+◌, ◌*◌, ◌<◌, ◌≤◌, length};
ghost use Rattle.math.specs.lists.Part.{splice};
ghost use Rattle.core_jl_tables.specs.Pairs.{pair_sum, pair_entries, pair_table, lowered_sum, joined_sums, joined_row, four_table, row_tables};

use core_jl::projection;
use ring_zq::zq::lowered;

// The sum of the terms of two words of omega and the entries of number x.
fn pair_sum(randomness: &[u32], at: usize, x: usize) -> u32
    requires { (at + 2 ≤ length randomness.now) × (x < 16) }
    ensures { result ≡ pair_sum randomness.now at x }
{
    let first = projection::term((x % 4) as u32 * 1073741824, randomness[at]);
    let second = projection::term((x / 4) as u32 * 1073741824, randomness[at + 1]);
    core_jl_transpose::carry_add(first, second)
}

// The same for each of four k, stored from `to` on.
fn pair_entries(randomness: &[u32], at: usize, x: usize, sums: &mut [u32], to: usize)
    requires { (at + 770 ≤ length randomness.now) × (x < 16) × (to + 4 ≤ length sums.old) }
    ensures { sums.new ≡ splice sums.old to (pair_entries randomness.now at x) }
{
    for k in 0..4 {
        sums[to + k] = pair_sum(randomness, at + k * 256, x);
    }
}

// The sums of four rows' terms, two rows together, for each number of their entries and each of four k. The omega of the first k starts at `omega_at`.
fn pair_sums(randomness: &[u32], omega_at: usize) -> [u32; 128]
    requires { omega_at + 772 ≤ length randomness.now }
    ensures { result ≡ pair_table randomness.now omega_at }
{
    let mut sums = [0u32; 128];
    for q in 0..32 {
        pair_entries(randomness, omega_at + q / 16 * 2, q % 16, &mut sums, 4 * q);
    }
    sums
}

// The sum of two words, at most Q.
fn lowered_sum(a: u32, b: u32) -> u32
    ensures { result ≡ lowered_sum a b }
{
    lowered(core_jl_transpose::carry_add(a, b))
}

// Four entries of the pairs' sums from x on and four from y on, added and stored from `at` on.
fn join_four(pairs: &[u32], x: usize, y: usize, tables: &mut [u32], at: usize)
    requires { (x + 4 ≤ length pairs.now) × (y + 4 ≤ length pairs.now) × (at + 4 ≤ length tables.old) }
    ensures { tables.new ≡ splice tables.old at (joined_sums pairs.now x y) }
{
    for k in 0..4 {
        tables[at + k] = lowered_sum(pairs[x + k], pairs[y + k]);
    }
}

// The same for each number of the first two rows' entries.
fn join_row(pairs: &[u32], y: usize, tables: &mut [u32], at: usize)
    requires { (64 ≤ length pairs.now) × (y + 4 ≤ length pairs.now) × (at + 64 ≤ length tables.old) }
    ensures { tables.new ≡ splice tables.old at (joined_row pairs.now y) }
{
    for x in 0..16 {
        join_four(pairs, 4 * x, y, tables, at + 4 * x);
    }
}

// The sums of four rows' terms for each number of their entries and each of four k, from those of two rows, stored from `at` on.
fn four_sums(pairs: &[u32], tables: &mut [u32], at: usize)
    requires { (length pairs.now ≡ 128) × (at + 1024 ≤ length tables.old) }
    ensures { tables.new ≡ splice tables.old at (four_table pairs.now) }
{
    for y in 0..16 {
        join_row(pairs, 64 + 4 * y, tables, at + 64 * y);
    }
}

// The tables of 16 rows, one for each four of them. The omega of the first row and the first k stands at `omega_at`.
pub fn fill_tables(randomness: &[u32], omega_at: usize, tables: &mut [u32])
    requires { (omega_at + 784 ≤ length randomness.now) × (length tables.old ≡ 4096) }
    ensures { tables.new ≡ row_tables randomness.now omega_at }
{
    for t in 0..4 {
        let pairs = pair_sums(randomness, omega_at + 4 * t);
        four_sums(&pairs, tables, 1024 * t);
    }
}
