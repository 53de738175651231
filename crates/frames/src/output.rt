ghost use Rattle.std.specs.Prelude.{[], ◌∷◌, flat_map, OnErr, OnOk, decimal};
ghost use Rattle.std.specs.Io.KnownBytes.{Appends};
ghost use Rattle.buffers.specs.Writes.{AppendsFront};

use buffers::write_full;
use itoa::Buffer;
use std::io;
use std::io::Write;

// Prints a number in decimal digits, with no zeros in front.
pub fn print_number<W: Write>(to: &mut W, n: u64) -> io::Result<()>
    ensures ok { OnOk result (Appends (W.contents to.old) (W.contents to.new) (decimal n)) }
    ensures err { OnErr result (AppendsFront (W.contents to.old) (W.contents to.new) (decimal n)) }
{
    let mut digits = Buffer::new();
    write_full(to, digits.format(n).as_bytes())
}

pub fn print_bytes<W: Write>(to: &mut W, s: &[u8]) -> io::Result<()>
    ensures ok { OnOk result (Appends (W.contents to.old) (W.contents to.new) s.now) }
    ensures err { OnErr result (AppendsFront (W.contents to.old) (W.contents to.new) s.now) }
{
    write_full(to, s)
}

// Prints a space, and then a number as above.
pub fn print_after_space<W: Write>(to: &mut W, n: u64) -> io::Result<()>
    ensures ok { OnOk result (Appends (W.contents to.old) (W.contents to.new) (32 ∷ decimal n)) }
    ensures err { OnErr result (AppendsFront (W.contents to.old) (W.contents to.new) (32 ∷ decimal n)) }
{
    print_bytes(to, b" ")?;
    print_number(to, n)
}

pub fn print_line_feed<W: Write>(to: &mut W) -> io::Result<()>
    ensures ok { OnOk result (Appends (W.contents to.old) (W.contents to.new) (10 ∷ [])) }
    ensures err { OnErr result (AppendsFront (W.contents to.old) (W.contents to.new) (10 ∷ [])) }
{
    write_full(to, b"\n")
}

// Prints marks, a digit each where they are 0 or 1.
pub fn print_marks<W: Write>(to: &mut W, marks: &[u8]) -> io::Result<()>
    ensures ok { OnOk result (Appends (W.contents to.old) (W.contents to.new) (flat_map decimal marks.now)) }
    ensures err { OnErr result (AppendsFront (W.contents to.old) (W.contents to.new) (flat_map decimal marks.now)) }
{
    for &mark in marks {
        print_number(to, u64::from(mark))?;
    }
    Ok(())
}
