// A reader, as an open file, read to its end or until the buffer is full, however it is cut into
// reads.

#![tactic(auto)]

ghost use Rattle.std.specs.Prelude.{◌≤◌, length, IfOk};

use std::io::{self, Read};

// How many bytes stand at the front of the buffer: never more than it holds. Which bytes they are
// isn't said, nor anything of a failed read.
pub fn read_input<R: Read>(from: &mut R, buffer: &mut [u8]) -> io::Result<usize>
    ensures read { IfOk result (λ n. n ≤ length buffer.new) }
{
    let mut n = 0;
    // `n` is what has been read, and each read says how much more: no index is counted.
    while n < buffer.len() {
        let more = from.read(&mut buffer[n..])?;
        if more == 0 {
            break;
        }
        n += more;
    }
    Ok(n)
}
