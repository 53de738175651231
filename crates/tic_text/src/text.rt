ghost use Rattle.std.specs.Prelude.{◌≡◌, ◌+◌, ◌≤◌, length};
ghost use Rattle.lines.specs.Splice.{Put};
ghost use Rattle.tic_text.specs.Pieces.{joined, texts_of};
ghost use Rattle.tic_text.specs.Text.{number_pieces, listed_text, footer_text, ListedRoom};

use crate::columns::COPIED;
use crate::values::TicSums;
use lines::{field, put_bytes, put_digits, put_run};

// Texts, one behind the other.
pub fn put_texts(out: &mut [u8], at: usize, texts: &[&[u8]]) -> usize
    requires { at + length (joined (texts_of texts.now)) ≤ length out.old }
    ensures { Put (joined (texts_of texts.now)) at out.old result out.new }
{
    let mut mid = at;
    for text in texts {
        mid = put_bytes(out, mid, text);
    }
    mid
}

// Two numbers of fifteen digits.
pub fn put_numbers(out: &mut [u8], at: usize, first: u64, second: u64) -> usize
    requires { at + 30 ≤ length out.old }
    ensures { Put (joined (number_pieces first second)) at out.old result out.new }
{
    let mid = put_digits(out, at, 15, first);
    put_digits(out, mid, 15, second)
}

// Writes a listed line: "1", columns 2 to 809 of the line, the code, line feed.
pub fn put_listed(out: &mut [u8], at: usize, line: &[u8], code: &[u8]) -> usize
    requires { ListedRoom line.now code.now at out.old }
    ensures { Put (listed_text line.now code.now) at out.old result out.new }
{
    put_texts(out, at, &[b"1", field(line, COPIED), code, b"\n"])
}

// Writes a footer.
pub fn put_footer(out: &mut [u8], at: usize, sums: TicSums) -> usize
    requires { at + 128 ≤ length out.old }
    ensures { Put (footer_text sums) at out.old result out.new }
{
    let mid = put_run(out, at, 1, b'2');
    let mid = put_numbers(out, mid, sums.accepted.0, sums.rejected.0);
    let mid = put_run(out, mid, 96, b'0');
    put_run(out, mid, 1, b'\n')
}
