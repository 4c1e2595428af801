// Reads lines of two decimal words from standard input and writes an answer to each to standard output. Document 01, "Proved table": "A program reads lines …".
#![tactic(auto)]

ghost use Rattle.std.specs.Prelude.{◌*◌, ◌≤◌, length};
ghost use Rattle.zq_lines_text.specs.Reading.{Bounded};
ghost use Rattle.zq_lines.specs.Turn.{TurnFrom};

use std::io::Read;
use thiserror::Error;
use zq_lines_text::feeding::{feed, finish};
use zq_lines_text::reading::{State, start};

// Why the program stops before the end of the input.
#[derive(Clone, Copy, Debug, Drop, Error)]
enum Failure {
    #[error("the input cannot be read")]
    Input,
    #[error("the output cannot be written")]
    Output,
}

// Reads once and writes the answers to the lines that end in what came. None where the input has ended.
fn read_some<I: Read>(
    rt: &impl Print,
    input: &mut I,
    s: State,
    chunk: &mut [u8],
    out: &mut [u8],
) -> Result<Option<State>, Failure>
    requires bounded { Bounded s }
    requires chunk_in_bounds { 56 * length chunk.old ≤ length out.old }
    ensures { TurnFrom s chunk.new out.new result }
{
    let Ok(n) = input.read(chunk) else {
        return Err(Failure::Input);
    };
    if n == 0 {
        return Ok(None);
    }
    let fed = feed(s, &chunk[..n], out);
    rt.write_all(&out[..fed.at]).map_err(|_| Failure::Output)?;
    Ok(Some(fed.state))
}

// Ends the input: a last line without a line feed is answered.
fn end(rt: &impl Print, s: State, out: &mut [u8]) -> Result<(), Failure>
    requires { 56 ≤ length out.old }
{
    let n = finish(s, out, 0);
    rt.write_all(&out[..n]).map_err(|_| Failure::Output)
}

// Reads to the end of the input. A proved loop has to end, and nothing says that an input does: the loop makes at most 2^64 − 1 reads, which no run uses up.
fn answer_lines<I: Read>(
    rt: &impl Print,
    input: &mut I,
    chunk: &mut [u8],
    out: &mut [u8],
) -> Result<(), Failure>
    requires chunk_in_bounds { 56 * length chunk.old ≤ length out.old }
    requires in_bounds { 56 ≤ length out.old }
{
    let mut state = start();
    for _ in 0..u64::MAX {
        match read_some(rt, input, state, chunk, out)? {
            Some(next) => state = next,
            None => return end(rt, state, out),
        }
    }
    Ok(())
}

// Reads 1024 bytes at a time; each can end a line, whose answer has at most 56 bytes. A failure is told on standard error, and the exit status is 0 all the same.
fn main(rt: HostRuntime) {
    let mut chunk = [0u8; 1024];
    let mut out = [0u8; 57344];
    if let Err(failure) = answer_lines(&rt, &mut rt.reader(), &mut chunk, &mut out) {
        let _ = eprintln!(rt; "zq_lines: {failure}");
    }
}
