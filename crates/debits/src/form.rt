ghost use Rattle.std.specs.Prelude.{◌≡◌, ◌*◌, ◌≤◌, length};
ghost use Rattle.passage.specs.Passage.{line_width};
ghost use Rattle.debits.specs.Form.{is_debit_type, debit_sound, lines_sound, marks_sound, debits_sound};

use lines::{Layout, field, line_count, line_of, read_digits};
use passage::{GROSS_AMOUNT, WIDTH};

// Open debits are lines of a TIF body and nothing else.
pub const DEBITS: Layout = Layout {
    header: 0,
    line: WIDTH,
    footer: 0,
};

// Whether the first character of a type is that of a debit.
#[tactic(auto, unfolding(crate::specs::Form::is_debit_type))]
fn is_debit_type(b: u8) -> bool
    ensures { result ≡ is_debit_type b }
{
    b == b'C' || b == b'D'
}

// Whether a line can be an open debit. A line feed inside it is no fault.
#[tactic(auto, unfolding(crate::specs::Form::debit_sound, lines::specs::Number::read_digits))]
fn debit_sound(line: &[u8]) -> bool
    requires { length line.now ≡ line_width }
    ensures { result ≡ debit_sound line.now }
{
    line[0] == b'1'
        && line[WIDTH - 1] == b'\n'
        && is_debit_type(line[1])
        && read_digits(field(line, GROSS_AMOUNT)).is_some()
}

// Whether each of n lines can be an open debit. No `all` over a range: its closure would have to show how long each line is.
#[tactic(auto, using(lines::specs::BelowLaws::all_zero, lines::specs::BelowLaws::all_more, crate::specs::FormLaws::debit_ends, crate::specs::FormLaws::debit_length), unfolding(crate::specs::Form::lines_sound, crate::specs::Form::debit_sound_at))]
fn lines_sound(debits: &[u8], n: usize) -> bool
    requires { n * line_width ≤ length debits.now }
    ensures { result ≡ lines_sound debits.now n }
{
    for j in 0..n {
        if !debit_sound(line_of(DEBITS, debits, j)) {
            return false;
        }
    }
    true
}

// Whether each mark is 0 or 1.
#[tactic(auto, using(crate::specs::FormLaws::marks_told))]
fn marks_sound(marks: &[u8]) -> bool
    ensures { result ≡ marks_sound marks.now }
{
    marks.iter().all(|mark| *mark <= 1)
}

// Whether open debits and their marks are of the right form (E6).
#[tactic(auto, using(crate::specs::FormLaws::debits_unruled, crate::specs::FormLaws::debits_lined, crate::specs::FormLaws::debits_told))]
pub fn debits_sound(debits: &[u8], marks: &[u8]) -> bool
    ensures { result ≡ debits_sound debits.now marks.now }
{
    let Some(n) = line_count(DEBITS, debits.len()) else {
        return false;
    };
    n == marks.len() && lines_sound(debits, n) && marks_sound(marks)
}
