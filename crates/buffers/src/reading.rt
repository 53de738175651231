ghost use Rattle.std.specs.Prelude.{◌<◌, ◌≤◌, length, take, IfOk, OnErr};
ghost use Rattle.std.specs.Io.KnownBytes.{Consumes, IsAtEnd};
ghost use Rattle.buffers.specs.Reads.{LosesAtMost};

use std::io;
use std::io::Read;

// Reads until buf is full or the input ends, and says how many bytes it put at the front of buf.
// A read that a signal interrupts counts as one that failed.
pub fn read_full<R: Read>(from: &mut R, buf: &mut [u8]) -> io::Result<usize>
    ensures within { IfOk result (λ n. n ≤ length buf.new) }
    ensures bytes { IfOk result (λ n. Consumes (R.remaining from.old) (R.remaining from.new) (take n buf.new)) }
    ensures end { IfOk result (λ n. n < length buf.new → IsAtEnd (R.remaining from.new)) }
    ensures err { OnErr result (LosesAtMost (R.remaining from.old) (R.remaining from.new) (length buf.new)) }
{
    // No `for`: a read moves the place by as many bytes as it gives.
    let mut done = 0;
    while done < buf.len() {
        let n = from.read(&mut buf[done..])?;
        if n == 0 {
            return Ok(done);
        }
        done += n;
    }
    Ok(done)
}
