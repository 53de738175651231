ghost use Rattle.std.specs.Prelude.{◌+◌, ◌≤◌, length, IfOk, OnErr, IfSome, IfNone};
ghost use Rattle.std.specs.Io.KnownBytes.{IsAtEnd};
ghost use Rattle.buffers.specs.Reads.{LosesAtMost};
ghost use Rattle.frames.specs.Cases.{ReadsKind, ReadsSize, ReadsPart, LacksPart};

use buffers::read_full;
use std::io;
use std::io::Read;

// Reads the kind of the next case; None where the input ends.
pub fn read_kind<R: Read>(from: &mut R) -> io::Result<Option<u8>>
    ensures ok { IfOk result (ReadsKind (R.remaining from.old) (R.remaining from.new)) }
    ensures err { OnErr result (LosesAtMost (R.remaining from.old) (R.remaining from.new) 1) }
{
    let mut one = [0u8; 1];
    if read_full(from, &mut one)? < 1 {
        return Ok(None);
    }
    Ok(Some(one[0]))
}

// Reads four bytes, the length of a part.
fn read_size<R: Read>(from: &mut R) -> io::Result<Option<usize>>
    ensures ok { IfOk result (λ part. IfSome part (ReadsSize (R.remaining from.old) (R.remaining from.new))) }
    ensures missing { IfOk result (λ part. IfNone part (IsAtEnd (R.remaining from.new))) }
    ensures err { OnErr result (LosesAtMost (R.remaining from.old) (R.remaining from.new) 4) }
{
    let mut head = [0u8; 4];
    if read_full(from, &mut head)? < 4 {
        return Ok(None);
    }
    Ok(Some(lines::big_endian(&head)))
}

// Reads a part into the front of buf, its length and then its bytes, and says how many bytes it has.
// None for one that is too long for buf or breaks off: after it nothing more is to be read.
#[tactic(auto, using(crate::proofs::Losses::loses_after_size, crate::proofs::Losses::lacks_room))]
pub fn read_part<R: Read>(from: &mut R, buf: &mut [u8]) -> io::Result<Option<usize>>
    ensures within { IfOk result (λ part. IfSome part (λ size. size ≤ length buf.new)) }
    ensures ok { IfOk result (λ part. IfSome part (λ size. ReadsPart (R.remaining from.old) (R.remaining from.new) size buf.new)) }
    ensures missing { IfOk result (λ part. IfNone part (LacksPart (R.remaining from.old) (R.remaining from.new) (length buf.old))) }
    ensures err { OnErr result (LosesAtMost (R.remaining from.old) (R.remaining from.new) (4 + length buf.new)) }
{
    let Some(size) = read_size(from)? else {
        return Ok(None);
    };
    if size > buf.len() {
        return Ok(None);
    }
    if read_full(from, &mut buf[0..size])? < size {
        return Ok(None);
    }
    Ok(Some(size))
}
