// What the replay prints.
use crate::counts::{ACCEPTED, Count, Tally};
use crate::kinds::Kind;
use std::{fmt, io};

// `differs` with the record's kind and number.
pub fn differs(rt: &impl Print, kind: Kind, record: u64) -> io::Result<()> {
    println!(rt; "differs {kind} record {record}")
}

// How many of the calls of a name were the same; nothing where there was none.
fn counted(rt: &impl Print, name: impl fmt::Display + Drop, count: Count) -> io::Result<()> {
    let same = count.same;
    let all = count.all;
    if all > 0 {
        println!(rt; "{name} {same} of {all}")?;
    }
    Ok(())
}

// The counts of the leaf calls, by their kinds.
pub fn leaves(rt: &impl Print, tally: &Tally) -> io::Result<()> {
    for kind in 1..32u32 {
        counted(rt, Kind::Leaf(kind), tally.leaves[kind as usize])?;
    }
    Ok(())
}

// The answer of a row.
#[derive(Clone, Copy, Drop)]
struct Row(u32);

impl fmt::Display for Row {
    fn fmt<W: fmt::Write>(&self, f: &mut fmt::Formatter<W>) -> fmt::Result {
        match self.0 {
            0 => write!(f, "made"),
            ACCEPTED => write!(f, "accepted"),
            number => write!(f, "number {number}"),
        }
    }
}

// The counts of the calls on whole slices, by their answers.
pub fn calls(rt: &impl Print, tally: &Tally) -> io::Result<()> {
    for row in 0..64u32 {
        counted(rt, Row(row), tally.calls[row as usize])?;
    }
    Ok(())
}

// Whether both files were read to their last records.
pub fn whole(rt: &impl Print, tally: &Tally) -> io::Result<()> {
    if tally.whole == 2 {
        println!(rt; "whole")
    } else {
        println!(rt; "not whole")
    }
}
