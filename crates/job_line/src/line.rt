ghost use Rattle.std.specs.Prelude.{◌≡◌, ◌+◌, ◌≤◌, length};
ghost use Rattle.lines.specs.Splice.{Put};
ghost use Rattle.job_line.specs.Line.{fault_text, head_text, counts_text, amounts_text, summary_text, answer_text};

use crate::number::{put_decimal, put_three};
use answers::{Answer, CallFault, Summary};
use lines::{put_digits, put_run};
use tic_text::put_side;

// "E" joined to its number. The room for it is asked by a clause, here and below, since each part is written at its own place of any slice.
fn put_fault(line: &mut [u8], at: usize, fault: CallFault) -> usize
    requires { at + 132 ≤ length line.old }
    ensures { Put (fault_text fault) at line.old result line.new }
{
    let mid = put_run(line, at, 1, b'E');
    put_decimal(line, mid, u64::from(fault))
}

// The acceptance and the side.
fn put_head(line: &mut [u8], at: usize, s: Summary) -> usize
    requires { at + 6 ≤ length line.old }
    ensures { Put (head_text s) at line.old result line.new }
{
    let mid = put_digits(line, at, 2, u64::from(s.answer));
    let mid = put_run(line, mid, 1, b' ');
    put_side(line, mid, s.side)
}

// Lines, accepted and refused.
#[tactic(auto, unfolding(crate::specs::Line::counts_text))]
fn put_counts(line: &mut [u8], at: usize, s: Summary) -> usize
    requires { at + 63 ≤ length line.old }
    ensures { Put (counts_text s) at line.old result line.new }
{
    put_three(
        line,
        at,
        s.lines as u64,
        s.accepted as u64,
        s.refused as u64,
    )
}

// Total, accepted amount and refused amount.
#[tactic(auto, unfolding(crate::specs::Line::amounts_text))]
fn put_amounts(line: &mut [u8], at: usize, s: Summary) -> usize
    requires { at + 63 ≤ length line.old }
    ensures { Put (amounts_text s) at line.old result line.new }
{
    put_three(line, at, s.total.0, s.accepted_amount.0, s.refused_amount.0)
}

// The acceptance and its seven values.
fn put_summary(line: &mut [u8], at: usize, s: Summary) -> usize
    requires { at + 132 ≤ length line.old }
    ensures { Put (summary_text s) at line.old result line.new }
{
    let mid = put_head(line, at, s);
    let mid = put_counts(line, mid, s);
    put_amounts(line, mid, s)
}

// An answer: its number, or its values.
pub fn put_answer(line: &mut [u8], at: usize, answer: Answer) -> usize
    requires { at + 132 ≤ length line.old }
    ensures { Put (answer_text answer) at line.old result line.new }
{
    match answer {
        Ok(s) => put_summary(line, at, s),
        Err(fault) => put_fault(line, at, fault),
    }
}
