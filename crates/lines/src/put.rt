ghost use Rattle.std.specs.Prelude.{◌≡◌, ◌+◌, ◌≤◌, length, replicate};
ghost use Rattle.lines.specs.Number.{digits_of};
ghost use Rattle.lines.specs.Splice.{Put};

// Writes a text into a place of out, and returns the place after it. A loop and no `copy_from_slice`, which would have the C archive ask for memmove.
pub fn put_bytes(out: &mut [u8], at: usize, text: &[u8]) -> usize
    requires { at + length text.now ≤ length out.old }
    ensures { Put text.now at out.old result out.new }
{
    for (i, &b) in text.iter().enumerate() {
        out[at + i] = b;
    }
    at + text.len()
}

// Writes a number as `width` decimal digits with zeros in front, and returns the place after them.
pub fn put_digits(out: &mut [u8], at: usize, width: usize, value: u64) -> usize
    requires { at + width ≤ length out.old }
    ensures { Put (digits_of width value) at out.old result out.new }
{
    let mut rest = value;
    for i in (0..width).rev() {
        out[at + i] = b'0' + (rest % 10) as u8;
        rest /= 10;
    }
    at + width
}

// Writes one byte `times` times, and returns the place after them.
pub fn put_run(out: &mut [u8], at: usize, times: usize, b: u8) -> usize
    requires { at + times ≤ length out.old }
    ensures { Put (replicate times b) at out.old result out.new }
{
    let end = at + times;
    out[at..end].fill(b);
    end
}
