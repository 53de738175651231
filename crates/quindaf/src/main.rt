// Reads a job from standard input, judges its call, and prints one line.
#![tactic(auto)]

ghost use Rattle.std.specs.Prelude.{IfSome, OnErr, OnOk};
ghost use Rattle.std.specs.Io.KnownBytes.{Appends};
ghost use Rattle.buffers.specs.Reads.{LosesAtMost};
ghost use Rattle.buffers.specs.Writes.{AppendsFront};
ghost use Rattle.job.specs.Printed.{printed_of};

use buffers::{read_full, write_full};
use job::answer_job;
use std::io;
use std::io::{Read, Write};

// Writes the line of all that from has left, and nothing else; where it fails, no more than a front of that line.
// One byte more is read than a job may have, so that one that is too long is seen; what is behind that byte is not read.
fn answer_input<R: Read, W: Write>(from: &mut R, to: &mut W) -> io::Result<()>
    ensures line { OnOk result (IfSome (R.remaining from.old) (λ input. Appends (W.contents to.old) (W.contents to.new) (printed_of input))) }
    ensures cut { OnErr result (IfSome (R.remaining from.old) (λ input. AppendsFront (W.contents to.old) (W.contents to.new) (printed_of input))) }
    ensures few { LosesAtMost (R.remaining from.old) (R.remaining from.new) 65537 }
{
    // Arrays, since the program has no heap.
    let mut job = [0u8; 65537];
    let mut line = [0u8; 133];
    let size = read_full(from, &mut job)?;
    let end = answer_job(&mut line, &job[0..size]);
    write_full(to, &line[0..end])
}

fn main(rt: HostRuntime) -> io::Result<()> {
    answer_input(&mut rt.reader(), &mut io::writer(&rt))
}
