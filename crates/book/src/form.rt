ghost use Rattle.std.specs.Prelude.{◌≡◌, true, ◌+◌, ◌*◌, ◌≤◌, ◌<◌, length};
ghost use Rattle.book.specs.Layout.{agreements, entry_end, period_end, body_of, width};
ghost use Rattle.book.specs.Form.{end_form, period_form, follows_at, period_sound_at, periods_sound, body_sound, rises_at, entry_sound_at, entries_sound, agreement_sound, bodies_sound, head_sound, book_form, Headed};
ghost use Rattle.book.specs.declared.form.PeriodFault.TheVariants.{WrongMoment};

use crate::layout::{
    END, NATION, PERIOD, PLATE, START, agreements_of, offset_of, pan_of, period_of, periods_at,
};
use lines::{Class, all_of, field, filled_with, is_before};
use moment::{MomentFault, check_moment};
use plate::plate_in_book;

// What is wrong with a period by itself.
#[derive(Clone, Copy)]
enum PeriodFault {
    WrongMoment(MomentFault),
    OtherFault,
}

impl From<MomentFault> for PeriodFault {
    ghost from_gives = { λ fault e. e ≡ WrongMoment fault };

    fn from(fault: MomentFault) -> PeriodFault {
        PeriodFault::WrongMoment(fault)
    }
}

// A book has at most so many bytes, agreements, and periods of one agreement.
const MOST_BYTES: usize = 1048576;

const MOST_AGREEMENTS: usize = 1000;

const MOST_PERIODS: usize = 64;

// The end of a period, which in the last one may be fourteen nines.
#[tactic(auto, unfolding(crate::specs::Form::end_form))]
fn end_form(end: &[u8], last: bool) -> Result<(), MomentFault>
    ensures { result ≡ end_form last end.now }
{
    if last && all_of(Class::Only(b'9'), end) {
        return Ok(());
    }
    check_moment(end)
}

// A period by itself; `last` says whether it is the last of its agreement, as the definitions have it.
#[tactic(auto, using(lines::specs::Tests::tests, crate::specs::LayoutLaws::start_length, crate::specs::LayoutLaws::end_length), unfolding(crate::specs::Form::period_form, lines::specs::FirstOf::first_of))]
fn period_form(period: &[u8], last: bool) -> Result<(), PeriodFault>
    requires { length period.now ≡ width }
    ensures { result ≡ period_form last period.now }
{
    if !plate_in_book(field(period, PLATE), field(period, NATION)) {
        return Err(PeriodFault::OtherFault);
    }
    check_moment(field(period, START))?;
    end_form(field(period, END), last)?;
    if !is_before(field(period, START), field(period, END)) {
        return Err(PeriodFault::OtherFault);
    }
    Ok(())
}

// Whether period j starts at or after the end before it.
#[tactic(auto, using(lines::specs::Tests::tests, crate::specs::LayoutLaws::period_length, crate::specs::LayoutLaws::start_length, crate::specs::LayoutLaws::end_length), unfolding(crate::specs::Form::follows_at))]
fn follows(book: &[u8], at: usize, j: usize) -> bool
    requires { period_end width at j ≤ length book.now }
    ensures { result ≡ follows_at width book.now at j }
{
    if j == 0 {
        return true;
    }
    let end = field(period_of(book, at, j - 1), END);
    !is_before(field(period_of(book, at, j), START), end)
}

// Whether period j of n is right.
#[tactic(auto, using(lines::specs::Tests::tests, crate::specs::LayoutLaws::period_length), unfolding(crate::specs::Form::period_sound_at))]
fn period_sound(book: &[u8], at: usize, n: usize, j: usize) -> bool
    requires { (period_end width at j ≤ length book.now) × (j < n) }
    ensures { result ≡ period_sound_at width book.now at n j }
{
    period_form(period_of(book, at, j), j + 1 == n).is_ok() && follows(book, at, j)
}

// Whether each of the n periods of the body at `at` is right.
fn periods_sound(book: &[u8], at: usize, n: usize) -> bool
    requires { body_of width at n ≤ length book.now }
    ensures { result ≡ periods_sound width book.now at n }
{
    (0..n).all(|j| period_sound(book, at, n, j))
}

// Whether a body stands at `at`, whole and right.
#[tactic(auto, using(lines::specs::Tests::tests), unfolding(crate::specs::Form::body_sound, crate::specs::Layout::body_end))]
fn body_sound(book: &[u8], at: usize) -> bool
    requires { at ≤ length book.now }
    ensures { result ≡ body_sound width book.now at }
{
    if book.len() - at < 14 {
        return false;
    }
    let n = periods_at(book, at);
    1 <= n && n <= MOST_PERIODS && at + 14 + n * PERIOD <= book.len() && periods_sound(book, at, n)
}

// Whether the PAN of agreement i stands after the one before it.
#[tactic(auto, using(lines::specs::Tests::tests, crate::specs::LayoutLaws::pan_length), unfolding(crate::specs::Form::rises_at))]
fn rises(book: &[u8], i: usize) -> bool
    requires { entry_end i ≤ length book.now }
    ensures { result ≡ rises_at book.now i }
{
    i == 0 || is_before(pan_of(book, i - 1), pan_of(book, i))
}

#[tactic(auto, unfolding(crate::specs::Form::entry_sound_at))]
fn entry_sound(book: &[u8], i: usize) -> bool
    requires { entry_end i ≤ length book.now }
    ensures { result ≡ entry_sound_at book.now i }
{
    filled_with(Class::Digit, pan_of(book, i)) && rises(book, i)
}

// Whether the PANs are of digits and rise.
fn entries_sound(book: &[u8]) -> bool
    requires { Headed book.now }
    ensures { result ≡ entries_sound book.now }
{
    (0..agreements_of(book)).all(|i| entry_sound(book, i))
}

// Whether the body of agreement i, which has to stand at `at`, is said to stand there, and is right.
#[tactic(auto, using(lines::specs::Tests::tests), unfolding(crate::specs::Form::agreement_sound))]
fn agreement_sound(book: &[u8], i: usize, at: usize) -> bool
    requires { (entry_end i ≤ length book.now) × (at ≤ length book.now) }
    ensures { result ≡ agreement_sound width book.now i at }
{
    offset_of(book, i) == at && body_sound(book, at)
}

// Whether the bodies are right, one behind the other, and nothing comes after them.
fn bodies_sound(book: &[u8]) -> bool
    requires { Headed book.now }
    ensures { result ≡ bodies_sound width book.now }
{
    let n = agreements_of(book);
    let mut at = 2 + n * 23;
    for i in 0..n {
        if !agreement_sound(book, i, at) {
            return false;
        }
        at = at + 14 + periods_at(book, at) * PERIOD;
    }
    at == book.len()
}

// Whether the book has a number of agreements and room for their entries, and nothing is too much.
#[tactic(auto, using(lines::specs::Tests::tests), unfolding(crate::specs::Form::head_sound))]
fn head_sound(book: &[u8]) -> bool
    ensures { result ≡ head_sound book.now }
{
    if book.len() < 2 || book.len() > MOST_BYTES {
        return false;
    }
    let n = agreements_of(book);
    n <= MOST_AGREEMENTS && 2 + n * 23 <= book.len()
}

// Whether the bytes are a book (E5).
#[tactic(auto, using(crate::specs::FormLaws::head_is), unfolding(crate::specs::Form::book_sound))]
pub fn check_book(book: &[u8]) -> bool
    ensures { result ≡ book_form width book.now }
{
    head_sound(book) && entries_sound(book) && bodies_sound(book)
}
