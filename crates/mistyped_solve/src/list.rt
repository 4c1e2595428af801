// Entries in their order in a lent list: for each its index and then its number (document 02, Items 8 and 12).
ghost use Rattle.std.specs.Prelude.{◌≡◌, ◌+◌, ◌*◌, ◌≤◌, length};
ghost use Rattle.math.specs.lists.Part.{splice};
ghost use Rattle.spec_leaves.specs.Zq.{size};
ghost use Rattle.spec_protocol.specs.Mistyped.{sign_rank as rank, comes_before as before, entry_words};
ghost use Rattle.mistyped_solve.specs.Insert.{entry, entry_of, entries, first_of, later_of, insert as inserted};

use ring_zq::zq::Zq;

// An index, and the number of smallest centred size that mends there.
#[derive(Clone, Copy)]
pub struct Entry {
    pub index: u32,
    pub number: u32,
}

// "negative numbers first": 0 for a number whose centre is negative, else 1.
fn sign_rank(number: u32) -> u32
    ensures { result ≡ rank number }
{
    if Zq(number).is_larger_than_half() {
        0
    } else {
        1
    }
}

// What entries are ordered by.
fn key(entry: Entry) -> (u32, u32, u32)
    ensures { result ≡ (size entry.number, rank entry.number, entry.index) }
{
    let size = Zq(entry.number).size();
    let rank = sign_rank(entry.number);
    (size, rank, entry.index)
}

// "entries of equal size now come with negative numbers first, then by lower l. Smallest size still leads."
fn comes_before(entry: Entry, other: Entry) -> bool
    ensures { result ≡ before (entry_of entry) (entry_of other) }
{
    key(entry) < key(other)
}

// Two entries in their order.
fn in_order(entry: Entry, other: Entry) -> (Entry, Entry)
    ensures first { entry_of result.0 ≡ first_of (entry_of entry) (entry_of other) }
    ensures later { entry_of result.1 ≡ later_of (entry_of entry) (entry_of other) }
{
    if comes_before(entry, other) {
        (entry, other)
    } else {
        (other, entry)
    }
}

// An entry put in its place among the first `count` entries of a list. The list is words, two for each entry, since the C interface lends it so.
pub fn insert(list: &mut [u32], count: usize, index: u32, number: u32)
    requires { 2 * count + 2 ≤ length list.old }
    ensures { list.new ≡ splice list.old 0 (entry_words (inserted (entry index number) (entries count list.old))) }
{
    let mut carried = Entry { index, number };
    for j in 0..count {
        let at = 2 * j;
        let next = Entry {
            index: list[at],
            number: list[at + 1],
        };
        let (first, later) = in_order(carried, next);
        list[at] = first.index;
        list[at + 1] = first.number;
        carried = later;
    }
    let at = 2 * count;
    list[at] = carried.index;
    list[at + 1] = carried.number;
}
