// An input in chunks of any size: each chunk is fed to the state, and the answers to the lines that it ends are written into a lent slice.
ghost use Rattle.std.specs.Prelude.{◌≡◌, ◌+◌, ◌*◌, ◌≤◌, length};
ghost use Rattle.zq_lines_text.specs.Reading.{Bounded, written, next, after, answers, last};
ghost use Rattle.zq_lines_text.specs.Written.{Written};

use crate::reading::{State, is_fresh, start, step};
use crate::writing::put_answer;

// The state after some bytes, and the place after the answers so far.
#[derive(Clone, Copy)]
pub struct Fed {
    pub state: State,
    pub at: usize,
}

// Feeds one byte: a line feed has the line answered.
fn feed_byte(f: Fed, b: u8, out: &mut [u8]) -> Fed
    requires bounded { Bounded f.state }
    requires at_in_bounds { f.at + 56 ≤ length out.old }
    ensures state_value { result.state ≡ next f.state b }
    ensures written { Written out.old f.at (written f.state b) out.new result.at }
{
    if b == b'\n' {
        Fed {
            state: start(),
            at: put_answer(out, f.at, f.state),
        }
    } else {
        Fed {
            state: step(f.state, b),
            ..f
        }
    }
}

// Feeds a chunk. Each of its bytes can end a line, whose answer has at most 56 bytes.
pub fn feed(s: State, chunk: &[u8], out: &mut [u8]) -> Fed
    requires bounded { Bounded s }
    requires chunk_in_bounds { 56 * length chunk.now ≤ length out.old }
    ensures state_value { result.state ≡ after s chunk.now }
    ensures written { Written out.old 0 (answers s chunk.now) out.new result.at }
{
    let mut f = Fed { state: s, at: 0 };
    for b in chunk {
        f = feed_byte(f, *b, out);
    }
    f
}

// Ends the input: a line that has begun is answered.
#[tactic(auto, using(crate::proofs::Ends::ended_fresh, crate::proofs::Ends::ended_begun))]
pub fn finish(s: State, out: &mut [u8], at: usize) -> usize
    requires { at + 56 ≤ length out.old }
    ensures { Written out.old at (last s) out.new result }
{
    if is_fresh(s) {
        at
    } else {
        put_answer(out, at, s)
    }
}
