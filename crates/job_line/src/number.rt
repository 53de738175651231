ghost use Rattle.std.specs.Prelude.{◌++◌, ◌≡◌, ◌+◌, ◌≤◌, length};
ghost use Rattle.lines.specs.Splice.{Put};
ghost use Rattle.job_line.specs.Line.{digit_count, decimal, after_blank};

use lines::{put_digits, put_run};

// How many decimal digits a number has; none below 2^64 has more than 20.
fn digit_count(value: u64) -> usize
    ensures { result ≡ digit_count 20 value }
{
    let mut rest = value;
    for digits in 1..20 {
        if rest < 10 {
            return digits;
        }
        rest /= 10;
    }
    20
}

// Writes a number with no zeros in front.
#[tactic(auto, using(crate::specs::LineLaws::count_le), unfolding(crate::specs::Line::decimal))]
pub fn put_decimal(line: &mut [u8], at: usize, value: u64) -> usize
    requires { at + 20 ≤ length line.old }
    ensures { Put (decimal value) at line.old result line.new }
{
    put_digits(line, at, digit_count(value), value)
}

// Writes a blank and a number.
fn put_after_blank(line: &mut [u8], at: usize, value: u64) -> usize
    requires { at + 21 ≤ length line.old }
    ensures { Put (after_blank value) at line.old result line.new }
{
    let mid = put_run(line, at, 1, b' ');
    put_decimal(line, mid, value)
}

// Writes three numbers, each with a blank before it.
pub fn put_three(line: &mut [u8], at: usize, first: u64, second: u64, third: u64) -> usize
    requires { at + 63 ≤ length line.old }
    ensures { Put (after_blank first ++ after_blank second ++ after_blank third) at line.old result line.new }
{
    let mid = put_after_blank(line, at, first);
    let mid = put_after_blank(line, mid, second);
    put_after_blank(line, mid, third)
}
