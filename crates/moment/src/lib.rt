// Moments YYYYMMDDhhmmss and dates YYYYMMDD, as written.
#![tactic(auto)]

ghost use Rattle.std.specs.Prelude.{◌≡◌, true, cond, ◌≤◌, ◌<◌, length};
ghost use Rattle.lines.specs.Columns.{field_of};
ghost use Rattle.lines.specs.Number.{all_digits, number_of};
ghost use Rattle.lines.specs.Same.{before};
ghost use Rattle.moment.specs.Calendar.{is_leap, days_in};
ghost use Rattle.moment.specs.Moment.{Numbered, date_fault, time_fault, check_digits, check_date, check_moment, is_date, is_moment};

use lines::{Class, Columns, all_of, field, number_of, word_at};

// A part of a moment, or a character that is no digit.
#[derive(Clone, Copy, PartialEq, Eq)]
pub enum MomentPart {
    Character,
    Year,
    Month,
    Day,
    Hour,
    Minute,
    Second,
}

// Why a moment or a date is not real: the first part that is wrong, or another number of bytes.
#[derive(Clone, Copy, PartialEq, Eq)]
pub enum MomentFault {
    Wrong(MomentPart),
    OtherLength,
}

const YEAR: Columns = Columns { from: 1, to: 4 };

const MONTH: Columns = Columns { from: 5, to: 6 };

const DAY: Columns = Columns { from: 7, to: 8 };

const HOUR: Columns = Columns { from: 9, to: 10 };

const MINUTE: Columns = Columns { from: 11, to: 12 };

const SECOND: Columns = Columns { from: 13, to: 14 };

// The days of each month, in an ordinary year and in a leap year: two rows of twelve, the form that the rules name.
const MONTH_LENGTHS: [[u8; 12]; 2] = [
    [31, 28, 31, 30, 31, 30, 31, 31, 30, 31, 30, 31],
    [31, 29, 31, 30, 31, 30, 31, 31, 30, 31, 30, 31],
];

#[tactic(auto, using(lines::specs::Tests::tests), unfolding(crate::specs::Calendar::is_leap, lines::specs::FirstOf::first_of))]
fn is_leap(year: u64) -> bool
    ensures { is_leap year ≡ cond result 1 0 }
{
    year % 4 == 0 && (year % 100 != 0 || year % 400 == 0)
}

// How many days a month from 1 to 12 has.
fn days_in(year: u64, month: usize) -> u64
    requires { (1 ≤ month) × (month ≤ 12) }
    ensures { result ≡ days_in year month }
{
    let lengths = MONTH_LENGTHS[usize::from(is_leap(year))];
    u64::from(lengths[month - 1])
}

// The number that some columns of a text of digits write.
fn number_in(s: &[u8], c: Columns) -> u64
    requires { Numbered s.now c }
    ensures { result ≡ number_of (field_of c s.now) }
{
    number_of(field(s, c))
}

// The first part of the date that is wrong, in digits of which the first eight are the date.
#[tactic(auto, using(lines::specs::Tests::tests), unfolding(crate::specs::Moment::date_fault, lines::specs::FirstOf::first_of))]
fn date_fault(s: &[u8]) -> Result<(), MomentFault>
    requires { (all_digits s.now ≡ true) × (8 ≤ length s.now) }
    ensures { result ≡ date_fault s.now }
{
    let year = number_in(s, YEAR);
    if year == 0 {
        return Err(MomentFault::Wrong(MomentPart::Year));
    }
    let month = number_in(s, MONTH);
    if month == 0 || 12 < month {
        return Err(MomentFault::Wrong(MomentPart::Month));
    }
    let day = number_in(s, DAY);
    if day == 0 || days_in(year, month as usize) < day {
        return Err(MomentFault::Wrong(MomentPart::Day));
    }
    Ok(())
}

// The first part of the time that is wrong, in fourteen digits.
fn time_fault(s: &[u8]) -> Result<(), MomentFault>
    requires { (all_digits s.now ≡ true) × (14 ≤ length s.now) }
    ensures { result ≡ time_fault s.now }
{
    if 23 < number_in(s, HOUR) {
        return Err(MomentFault::Wrong(MomentPart::Hour));
    }
    if 59 < number_in(s, MINUTE) {
        return Err(MomentFault::Wrong(MomentPart::Minute));
    }
    if 59 < number_in(s, SECOND) {
        return Err(MomentFault::Wrong(MomentPart::Second));
    }
    Ok(())
}

// Whether there are so many bytes, and all of them digits.
#[tactic(auto, using(lines::specs::Tests::tests), unfolding(crate::specs::Moment::check_digits, lines::specs::FirstOf::first_of, lines::specs::Number::all_digits))]
fn check_digits(s: &[u8], width: usize) -> Result<(), MomentFault>
    ensures { result ≡ check_digits width s.now }
{
    if s.len() != width {
        return Err(MomentFault::OtherLength);
    }
    if !all_of(Class::Digit, s) {
        return Err(MomentFault::Wrong(MomentPart::Character));
    }
    Ok(())
}

// Whether the bytes are a real date of eight, and what is wrong first.
#[tactic(auto, using(lines::specs::Tests::tests), unfolding(crate::specs::Moment::check_date, crate::specs::Moment::check_digits, lines::specs::FirstOf::first_of))]
pub fn check_date(s: &[u8]) -> Result<(), MomentFault>
    ensures { result ≡ check_date s.now }
{
    check_digits(s, 8)?;
    date_fault(s)
}

// Whether the bytes are a real moment of fourteen, and what is wrong first.
#[tactic(auto, using(lines::specs::Tests::tests), unfolding(crate::specs::Moment::check_moment, crate::specs::Moment::check_digits, lines::specs::FirstOf::first_of))]
pub fn check_moment(s: &[u8]) -> Result<(), MomentFault>
    ensures { result ≡ check_moment s.now }
{
    check_digits(s, 14)?;
    date_fault(s)?;
    time_fault(s)
}

#[tactic(auto, unfolding(crate::specs::Moment::is_date))]
pub fn is_date(s: &[u8]) -> bool
    ensures { result ≡ is_date s.now }
{
    check_date(s).is_ok()
}

#[tactic(auto, unfolding(crate::specs::Moment::is_moment))]
pub fn is_moment(s: &[u8]) -> bool
    ensures { result ≡ is_moment s.now }
{
    check_moment(s).is_ok()
}

// Whether a moment, as written, stands before another. Fourteen bytes are two words that share two bytes; the second ones are read only where the first are the same, so these are no tuples.
pub fn is_earlier(a: &[u8], b: &[u8]) -> bool
    requires { (length a.now ≡ 14) × (length b.now ≡ 14) }
    ensures { result ≡ before a.now b.now }
{
    let first = word_at(a, 0);
    let other = word_at(b, 0);
    if first != other {
        return first < other;
    }
    word_at(a, 6) < word_at(b, 6)
}
