// Records read from a file one after the other.
ghost use Rattle.std.specs.Prelude.{◌≤◌, length, IfOk};

use crate::kinds::Kind;
use crate::words;
use std::io;
use std::io::Read;

// A record's kind, and how many bytes its body has.
#[derive(Clone, Copy)]
pub struct Record {
    pub kind: Kind,
    pub length: usize,
}

// Reads until a buffer is full or the input ends, and answers how many bytes were read. `read_exact` does not say how many came.
pub fn read_full<I: Read>(input: &mut I, bytes: &mut [u8]) -> io::Result<usize>
    ensures { IfOk result (λ n. n ≤ length bytes.new) }
{
    let mut done = 0;
    while done < bytes.len() {
        let n = input.read(&mut bytes[done..])?;
        if n == 0 {
            break;
        }
        done += n;
    }
    Ok(done)
}

// Reads one record, its body into the first bytes of a buffer. None where no whole record follows, or where the buffer is too short for it.
pub fn read<I: Read>(input: &mut I, bytes: &mut [u8]) -> io::Result<Option<Record>> {
    let mut head = [0u8; 8];
    if read_full(input, &mut head)? < 8 {
        return Ok(None);
    }
    let words = words::at(&head, 1) as usize;
    if words > words::MOST {
        return Ok(None);
    }
    let length = 4 * words;
    let Some(body) = bytes.get_mut(..length) else {
        return Ok(None);
    };
    if read_full(input, body)? < length {
        return Ok(None);
    }
    Ok(Some(Record {
        kind: Kind::from(words::at(&head, 0)),
        length,
    }))
}
