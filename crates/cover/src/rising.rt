ghost use Rattle.std.specs.Prelude.{◌≡◌, true, List, ℕ, ◌≤◌, ◌<◌, length};
ghost use Rattle.lines.specs.Found.{found_below};
ghost use Rattle.book.specs.Layout.{agreements, entry_end, periods_at, period_end, width};
ghost use Rattle.book.specs.Form.{Body};
ghost use Rattle.cover.specs.Cover.{asked, covers_at, cover_in, pan_is, reached_at, Ready, Named};
ghost use Rattle.cover.specs.Rising.{start_of, after};

use crate::cover::{Place, body_place, in_time};
use crate::halving::first_true;
use book::{START, agreements_of, pan_of, period_of, periods_at};
use lines::{field, is_before, is_same};

// Whether PAN i is at or after the one looked for.
#[tactic(auto, using(lines::specs::Tests::tests, book::specs::LayoutLaws::pan_length), unfolding(crate::specs::Cover::reached_at))]
fn reached(book: &[u8], pan: &[u8], i: usize) -> bool
    requires { (entry_end i ≤ length book.now) × (length pan.now ≡ 19) }
    ensures { result ≡ reached_at book.now pan.now i }
{
    !is_before(pan_of(book, i), pan)
}

// The agreement of a PAN, found by halving since PANs rise.
#[tactic(auto, using(crate::specs::PansLaws::sound_enough))]
pub fn agreement_of(book: &[u8], pan: &[u8]) -> Option<usize>
    requires { Named width book.now pan.now }
    ensures { result ≡ found_below (agreements book.now) (pan_is book.now pan.now) }
{
    let n = agreements_of(book);
    let i = first_true(n, |i| reached(book, pan, i));
    if i < n && is_same(pan_of(book, i), pan) {
        return Some(i);
    }
    None
}

// Whether period j of the body at `at` starts after the moment.
#[tactic(auto, using(book::specs::LayoutLaws::period_length, book::specs::LayoutLaws::start_length), unfolding(crate::specs::Rising::after, crate::specs::Rising::start_of))]
fn starts_after(book: &[u8], at: usize, j: usize, moment: &[u8]) -> bool
    requires { (period_end width at j ≤ length book.now) × (length moment.now ≡ 14) }
    ensures { result ≡ after (start_of width book.now at) moment.now j }
{
    is_before(moment, field(period_of(book, at, j), START))
}

// The period of the body at `at` in whose time the moment lies: if any, the last that has started by then, found by halving since the starts rise.
fn period_in_time(book: &[u8], at: usize, moment: &[u8]) -> Option<usize>
    requires { Body width book.now at × (length moment.now ≡ 14) }
    ensures { (plate nation : List ℕ) → result ≡ found_below (periods_at book.now at) (covers_at width book.now at (asked true moment.now plate nation)) }
{
    let started = first_true(
        periods_at(book, at),
        move |j| starts_after(book, at, j, moment),
    );
    let last = started.checked_sub(1)?;
    if in_time(period_of(book, at, last), moment) {
        return Some(last);
    }
    None
}

// The period of agreement i that covers where a PAN has named it: no plate is compared. It is `cover_in` with another search; a parameter for the search would need a contract longer than these lines.
pub fn cover_in_time(book: &[u8], i: usize, moment: &[u8]) -> Option<Place>
    requires { Ready width book.now moment.now × (i < agreements book.now) }
    ensures { (plate nation : List ℕ) → result ≡ cover_in width book.now (asked true moment.now plate nation) i }
{
    let j = period_in_time(book, body_place(book, i), moment)?;
    Some(Place {
        agreement: i + 1,
        period: j + 1,
    })
}
