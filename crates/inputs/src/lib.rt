//! Reads an input whole into a buffer.
//!
//! The contract says which bytes of the input stand in the buffer, and what is left of the input.
//! A reader may give any number of bytes at a time, and do what it likes to the buffer after them.
#![tactic(auto)]

ghost use Rattle.std.specs.Prelude.{◌≤◌, length, take, IfOk, OnErr};
ghost use Rattle.inputs.specs.Input.{Taken, TakenBefore};

use std::io::{self, Read};

/// Reads until `buf` is full or the input ends, and answers how many bytes stand at its start.
/// Fails with the reader's first error; what was read before it stands in `buf`.
pub fn read_full<R: Read>(input: &mut R, buf: &mut [u8]) -> io::Result<usize>
    ensures within { IfOk result (λ n. n ≤ length buf.new) }
    ensures taken { IfOk result (λ n. Taken (R.remaining input.old) (R.remaining input.new)
        (length buf.new) (take n buf.new)) }
    ensures before { OnErr result
        (TakenBefore (R.remaining input.old) (R.remaining input.new) buf.new) }
{
    let mut done = 0;
    // `while`: a read may give fewer bytes than asked, so the step is not 1.
    while done < buf.len() {
        let n = input.read(&mut buf[done..])?;
        if n == 0 {
            break;
        }
        done += n;
    }
    Ok(done)
}
