ghost use Rattle.std.specs.Prelude.{◌≡◌, true, ◌≤◌, ◌<◌, length};
ghost use Rattle.lines.specs.Below.{first_below};
ghost use Rattle.lines.specs.Found.{found_below};
ghost use Rattle.book.specs.Layout.{agreements, periods_at, period_end, body_place, width};
ghost use Rattle.book.specs.Form.{book_sound, Body};
ghost use Rattle.cover.specs.Cover.{in_time, leased_to, covers_at, has_cover, cover_in, cover_of, Ready};
ghost use Rattle.cover.specs.Detected.{asked_by};

use crate::rising::{agreement_of, cover_in_time};
use book::{END, NATION, PLATE, START, agreements_of, offset_of, period_of, periods_at};
use lines::{Class, all_of, field, is_before, is_same};

// An agreement and a period of it, both counted from 1.
#[derive(Clone, Copy, PartialEq, Eq)]
pub struct Place {
    pub agreement: usize,
    pub period: usize,
}

// What was detected of a passage: its exit moment, and the plate with its nation. With a PAN only the moment is asked of a period.
#[derive(Clone, Copy)]
pub struct Detected<'a> {
    pub moment: &'a [u8],
    pub plate: &'a [u8],
    pub nation: &'a [u8],
}

// Whether start ≤ moment < end.
#[tactic(auto, using(book::specs::LayoutLaws::start_length, book::specs::LayoutLaws::end_length), unfolding(crate::specs::Cover::in_time))]
pub fn in_time(period: &[u8], moment: &[u8]) -> bool
    requires { (length period.now ≡ width) × (length moment.now ≡ 14) }
    ensures { result ≡ in_time moment.now period.now }
{
    let start = field(period, START);
    let end = field(period, END);
    !is_before(moment, start) && is_before(moment, end)
}

// Whether the period has this plate and nation.
#[tactic(auto, unfolding(crate::specs::Cover::leased_to))]
pub fn is_leased(period: &[u8], plate: &[u8], nation: &[u8]) -> bool
    requires { length period.now ≡ width }
    ensures { result ≡ leased_to plate.now nation.now period.now }
{
    is_same(field(period, PLATE), plate) && is_same(field(period, NATION), nation)
}

// Whether period j of the body at `at` covers. Most periods of a book have another plate, so that is compared first.
#[tactic(auto, using(book::specs::LayoutLaws::period_length), unfolding(crate::specs::Cover::covers_at, crate::specs::Cover::period_covers))]
fn covers_at(book: &[u8], at: usize, j: usize, detected: Detected) -> bool
    requires { (period_end width at j ≤ length book.now) × (length detected.moment.now ≡ 14) }
    ensures { result ≡ covers_at width book.now at (asked_by detected.entry) j }
{
    let period = period_of(book, at, j);
    is_leased(period, detected.plate, detected.nation) && in_time(period, detected.moment)
}

// The first period that covers of the body at `at`.
#[tactic(auto, unfolding(book::specs::Layout::body_end))]
fn first_covering(book: &[u8], at: usize, detected: Detected) -> Option<usize>
    requires { Body width book.now at × (length detected.moment.now ≡ 14) }
    ensures { result ≡ found_below (periods_at book.now at) (covers_at width book.now at (asked_by detected.entry)) }
{
    (0..periods_at(book, at)).find(|&j| covers_at(book, at, j, detected))
}

// That the book is sound is asked by clauses, here and below, since callers lend it as bytes: a type would be built in each public function only to be taken apart.
// Where the body of agreement i stands, as its entry says.
pub fn body_place(book: &[u8], i: usize) -> usize
    requires { (book_sound width book.now ≡ true) × (i < agreements book.now) }
    ensures { result ≡ body_place width book.now i }
{
    offset_of(book, i)
}

// The first period of agreement i that covers.
fn cover_in(book: &[u8], i: usize, detected: Detected) -> Option<Place>
    requires { Ready width book.now detected.moment.now × (i < agreements book.now) }
    ensures { result ≡ cover_in width book.now (asked_by detected.entry) i }
{
    let j = first_covering(book, body_place(book, i), detected)?;
    Some(Place {
        agreement: i + 1,
        period: j + 1,
    })
}

// What covers a passage with a blank PAN: the first period in book order. No `find_map`: the library has no lemma on it.
#[tactic(auto, using(crate::specs::PansLaws::sound_enough))]
fn first_cover(book: &[u8], detected: Detected) -> Option<Place>
    requires { Ready width book.now detected.moment.now }
    ensures { result ≡ cover_in width book.now (asked_by detected.entry) (first_below (agreements book.now) (has_cover width book.now (asked_by detected.entry))) }
{
    for i in 0..agreements_of(book) {
        if let Some(place) = cover_in(book, i, detected) {
            return Some(place);
        }
    }
    None
}

// What covers a passage with this PAN: the first period in book order. A sound book is what the check has shown before. This searches the book, where `cover_by` reads indexes of it.
pub fn cover_at(book: &[u8], pan: &[u8], detected: Detected) -> Option<Place>
    requires { Ready width book.now detected.moment.now × (length pan.now ≡ 19) }
    ensures { result ≡ cover_of width book.now pan.now detected.entry.moment.now detected.entry.plate.now detected.entry.nation.now }
{
    if all_of(Class::Only(b' '), pan) {
        return first_cover(book, detected);
    }
    cover_in_time(book, agreement_of(book, pan)?, detected.moment)
}
