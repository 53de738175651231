ghost use Rattle.std.specs.Prelude.{◌≡◌, true, ◌+◌, ◌*◌, ◌/◌, ◌%◌, ◌≤◌, ◌<◌, length};
ghost use Rattle.lines.specs.Found.{found_below};
ghost use Rattle.book.specs.Layout.{agreements, period_end, width};
ghost use Rattle.book.specs.Form.{book_sound, most_bytes};
ghost use Rattle.cover.specs.Cover.{period_covers, place_at, cover_of, Ready};
ghost use Rattle.cover.specs.Detected.{asked_by};
ghost use Rattle.cover.specs.Pans.{PansIndexed};
ghost use Rattle.cover.specs.Plates.{plate_links, numbers_of, slot_at, covers_number, PeriodAt, PlatesFrom, PlatesIndexed};

use crate::cover::{Detected, Place, body_place, in_time, is_leased};
use crate::pans::agreement_with;
use crate::rising::cover_in_time;
use book::{NATION, PERIOD, PLATE, agreements_of, period_of, periods_at};
use chains::{HASHES, Index, clear_ahead, enter_ahead, hash_two, next_ahead};
use lines::{Class, all_of, field};

// A period has a number: 64 for each agreement before its own, and its place there; so numbers go in book order. The links of an index lead
// from each hash of a plate and nation to the first period that has it, and from each period to the next, by their numbers.
// There is one for each of 4,096 hashes, and one for each 40 bytes of the longest book.
pub const PLATE_LINKS: usize = 30310;

// Where the link of period j of the body at `at` stands behind those of the hashes. Periods do not overlap, so no two share a slot.
fn slot_at(at: usize, j: usize) -> usize
    requires { period_end width at j ≤ most_bytes }
    ensures { (result ≡ slot_at at j) × (result < 26214) }
{
    (at + 14 + j * PERIOD) / PERIOD
}

// Puts period j of agreement i, whose body stands at `at`, in front of its chain.
fn enter_period(book: &[u8], i: usize, at: usize, j: usize, links: &mut [u16])
    requires { PeriodAt book.now i at j × PlatesFrom book.now (64 * i + j + 1) links.old }
    ensures { PlatesFrom book.now (64 * i + j) links.new }
{
    let period = period_of(book, at, j);
    let h = hash_two(field(period, PLATE), field(period, NATION));
    enter_ahead(links, h, slot_at(at, j), 64 * i + j);
}

// Puts the periods of agreement i in front of their chains, the last first.
fn enter_body(book: &[u8], i: usize, links: &mut [u16])
    requires book_value { (book_sound width book.now ≡ true) × (i < agreements book.now) }
    requires plates_from { PlatesFrom book.now (64 * (i + 1)) links.old }
    ensures { PlatesFrom book.now (64 * i) links.new }
{
    let at = body_place(book, i);
    for j in (0..periods_at(book, at)).rev() {
        enter_period(book, i, at, j, links);
    }
}

// Chains the periods of a sound book by plate and nation. What the links held before does not matter.
pub fn index_plates(book: &[u8], links: &mut [u16])
    requires { (book_sound width book.now ≡ true) × (plate_links ≤ length links.old) }
    ensures { PlatesIndexed book.now links.new }
{
    let n = agreements_of(book);
    clear_ahead(links, 64 * n);
    for i in (0..n).rev() {
        enter_body(book, i, links);
    }
}

// Whether the period covers by its plate and nation. Most periods of a chain have these, so the time is compared first, and not the plate as where all of a book is searched.
#[tactic(auto, using(lines::specs::BoolLaws::and_false_right, lines::specs::BoolLaws::and_one), unfolding(crate::specs::Cover::period_covers))]
fn plate_covers(period: &[u8], detected: Detected) -> bool
    requires { (length period.now ≡ width) × (length detected.moment.now ≡ 14) }
    ensures { result ≡ period_covers (asked_by detected.entry) period.now }
{
    in_time(period, detected.moment) && is_leased(period, detected.plate, detected.nation)
}

// The number of the first period in book order with this plate and nation that covers.
fn first_leased(book: &[u8], links: &[u16], detected: Detected) -> Option<usize>
    requires { Ready width book.now detected.moment.now × PlatesIndexed book.now links.now }
    ensures { result ≡ found_below (numbers_of book.now) (covers_number book.now (asked_by detected.entry)) }
{
    let n = 64 * agreements_of(book);
    let mut link = hash_two(detected.plate, detected.nation);
    while let Some(x) = next_ahead(links, link, n) {
        let at = body_place(book, x / 64);
        if plate_covers(period_of(book, at, x % 64), detected) {
            return Some(x);
        }
        link = HASHES + slot_at(at, x % 64);
    }
    None
}

// The place of the period of number x.
fn place_of(x: usize) -> Place
    requires { x < 64000 }
    ensures { result ≡ place_at (x / 64) (x % 64) }
{
    Place {
        agreement: x / 64 + 1,
        period: x % 64 + 1,
    }
}

// What covers a passage with this PAN: the first period in book order. The PANs are indexed by `index_pans`, the links made by `index_plates`.
pub fn cover_by(
    book: &[u8],
    pans: &Index,
    links: &[u16],
    pan: &[u8],
    detected: Detected,
) -> Option<Place>
    requires ready { Ready width book.now detected.moment.now × (length pan.now ≡ 19) × PlatesIndexed book.now links.now }
    requires pans_indexed { PansIndexed book.now pans.now }
    ensures { result ≡ cover_of width book.now pan.now detected.entry.moment.now detected.entry.plate.now detected.entry.nation.now }
{
    if all_of(Class::Only(b' '), pan) {
        let x = first_leased(book, links, detected)?;
        return Some(place_of(x));
    }
    cover_in_time(book, agreement_with(book, pans, pan)?, detected.moment)
}
