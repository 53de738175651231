ghost use Rattle.std.specs.Prelude.{◌≡◌, true, ◌≤◌, length};
ghost use Rattle.lines.specs.Number.{all_digits, number_of};
ghost use Rattle.lines.specs.Rows.{file_length};
ghost use Rattle.passage.specs.Passage.{gross_amount};
ghost use Rattle.tic_text.specs.Columns.{tic_layout};
ghost use Rattle.tic_parts.specs.Reading.{listed_formed, lines_formed, listed_sum};
ghost use Rattle.tic_parts.specs.ReadingLaws.{Lined};

use lines::{Class, Gross, all_of, field, line_of, number_of};
use passage::GROSS_AMOUNT;
use tic_text::{CODE, TIC};

// Whether a listed line begins as one, and has an amount and a code.
#[tactic(auto, unfolding(crate::specs::Reading::listed_formed, tif::specs::Every::every, lines::specs::Number::all_digits))]
fn listed_formed(row: &[u8]) -> bool
    requires { length row.now ≡ 812 }
    ensures { result ≡ listed_formed row.now }
{
    row[0] == b'1'
        && all_of(Class::Digit, field(row, GROSS_AMOUNT))
        && all_of(Class::DigitOrCapital, field(row, CODE))
}

// Whether each of the n listed lines does (T4). A for and no all: the test asks for whole rows, which all does not tell its closure.
#[tactic(auto, using(lines::specs::BelowLaws::all_zero, lines::specs::BelowLaws::all_more, lines::specs::RowsLaws::line_ends, lines::specs::RowsLaws::line_length), unfolding(crate::specs::Reading::lines_formed, crate::specs::Reading::listed_formed_at))]
pub fn lines_formed(tic: &[u8], n: usize) -> bool
    requires { file_length tic_layout n ≤ length tic.now }
    ensures { result ≡ lines_formed tic.now n }
{
    for k in 0..n {
        if !listed_formed(line_of(TIC, tic, k)) {
            return false;
        }
    }
    true
}

// The amount with VAT of a listed line.
fn row_amount(row: &[u8]) -> Gross
    requires { (length row.now ≡ 812) × (all_digits (gross_amount row.now) ≡ true) }
    ensures { result.0 ≡ number_of (gross_amount row.now) }
{
    Gross(number_of(field(row, GROSS_AMOUNT)))
}

// The exact sum of the amounts of the n listed lines.
#[tactic(auto, using(lines::specs::BelowLaws::sum_zero, lines::specs::BelowLaws::sum_suc, lines::specs::RowsLaws::line_ends), unfolding(crate::specs::Reading::listed_sum, crate::specs::Reading::listed_amount))]
pub fn listed_sum(tic: &[u8], n: usize) -> Gross
    requires { Lined tic.now n }
    ensures { result.0 ≡ listed_sum tic.now n }
{
    let mut sum = Gross(0);
    for k in 0..n {
        sum = sum + row_amount(line_of(TIC, tic, k));
    }
    sum
}
