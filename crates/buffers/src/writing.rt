ghost use Rattle.std.specs.Prelude.{OnErr, OnOk};
ghost use Rattle.std.specs.Io.KnownBytes.{Appends};
ghost use Rattle.buffers.specs.Writes.{AppendsFront};

use std::io;
use std::io::{ErrorKind, Write};

// Writes all of s, or the front of it where a write fails or takes nothing.
// A write that a signal interrupts counts as one that failed.
pub fn write_full<W: Write>(to: &mut W, s: &[u8]) -> io::Result<()>
    ensures ok { OnOk result (Appends (W.contents to.old) (W.contents to.new) s.now) }
    ensures err { OnErr result (AppendsFront (W.contents to.old) (W.contents to.new) s.now) }
{
    // No `for`: a write moves the place by as many bytes as it takes.
    let mut done = 0;
    while done < s.len() {
        let n = to.write(&s[done..])?;
        if n == 0 {
            return Err(ErrorKind::WriteZero.into());
        }
        done += n;
    }
    Ok(())
}
