// Replays the published Rust's recorded answers on the leaf calls and on the calls on whole slices.
// It prints how many of each kind are the same, and a `differs` line for each that is not.
#![tactic(auto)]

mod answers;
mod calls;
mod elements;
mod leaves;
mod numbers;

use anyhow::{Context, Result};
use replay_records::counts::Tally;
use replay_records::kinds::Kind;
use replay_records::slices::Run;
use replay_records::{reading, report, words};
use std::io::Read;
use std::rt::Files;
use std::{fs, io};

// Tells of a call that is not the same.
fn told(rt: &impl Print, kind: Kind, same: bool, record: u64) -> io::Result<()> {
    if same {
        Ok(())
    } else {
        report::differs(rt, kind, record)
    }
}

// Replays a record and counts it. Answers whether more records can follow.
fn take(
    rt: &impl Print,
    kind: Kind,
    body: &[u8],
    run: &mut Run,
    tally: &mut Tally,
) -> io::Result<bool> {
    match kind {
        Kind::Put => run.put(body),
        Kind::Length => run.resize(body),
        Kind::Call => {
            let same = calls::same(body, run);
            tally.add_call(calls::number(body), calls::verifies(body), same);
            told(rt, kind, same, tally.records)?;
        }
        Kind::Leaf(number) => {
            let same = leaves::same(number, body);
            tally.add_leaf(number, same);
            told(rt, kind, same, tally.records)?;
        }
        Kind::End => {
            tally.end(u64::from(words::at(body, 0)));
            return Ok(false);
        }
    }
    tally.add_record();
    Ok(true)
}

// Reads one record and replays it. Answers whether more records can follow.
fn read_record<I: Read>(
    rt: &impl Print,
    input: &mut I,
    run: &mut Run,
    tally: &mut Tally,
) -> io::Result<bool> {
    let mut bytes = [0u8; 16384];
    let Some(record) = reading::read(input, &mut bytes)? else {
        return Ok(false);
    };
    match bytes.get(..record.length) {
        Some(body) => take(rt, record.kind, body, run, tally),
        None => Ok(false),
    }
}

// Reads records until a file's last one. A proved loop has to end, so it counts to a number that no file uses up.
fn read_all<I: Read>(
    rt: &impl Print,
    input: &mut I,
    run: &mut Run,
    tally: &mut Tally,
) -> io::Result<()> {
    for _ in 0..u64::MAX {
        if !read_record(rt, input, run, tally)? {
            break;
        }
    }
    Ok(())
}

// Replays the records of a file.
fn read_file(rt: &(impl Files + Print + Eprint), path: &str, tally: &mut Tally) -> Result<()> {
    let mut file = match fs::open(rt, path) {
        Ok(file) => file,
        Err(e) => {
            eprintln!(rt; "{path}: {e}")?;
            return Ok(());
        }
    };
    let mut run = Run::new();
    read_all(rt, &mut file, &mut run, tally).context(path)
}

fn main(rt: HostRuntime) -> Result<()> {
    let mut tally = Tally::new();
    read_file(&rt, "leaves", &mut tally)?;
    read_file(&rt, "calls", &mut tally)?;
    report::leaves(&rt, &tally)?;
    report::calls(&rt, &tally)?;
    report::whole(&rt, &tally)?;
    Ok(())
}
