ghost use Rattle.std.specs.Prelude.{◌≡◌, ◌+◌, ◌≤◌, length};
ghost use Rattle.book.specs.Layout.{agreements, entry_end, pan_of, offset_of, body_head, periods_at, period_end, period_of, width};

use lines::{Columns, Layout, big_endian, field, line_of};

// Bytes of a period.
pub const PERIOD: usize = 40;

const AGREEMENTS: Columns = Columns { from: 1, to: 2 };

// The entries, one for each agreement.
pub const ENTRIES: Layout = Layout {
    header: 2,
    line: 23,
    footer: 0,
};

pub const PAN: Columns = Columns { from: 1, to: 19 };

const OFFSET: Columns = Columns { from: 20, to: 23 };

const PERIODS: Columns = Columns { from: 13, to: 14 };

pub const PLATE: Columns = Columns { from: 1, to: 10 };

pub const NATION: Columns = Columns { from: 11, to: 12 };

pub const START: Columns = Columns { from: 13, to: 26 };

pub const END: Columns = Columns { from: 27, to: 40 };

// How many agreements the book says it has.
pub fn agreements_of(book: &[u8]) -> usize
    requires { 2 ≤ length book.now }
    ensures { result ≡ agreements book.now }
{
    big_endian(field(book, AGREEMENTS))
}

// The PAN of agreement i, counted from 0. That its entry stands in the book is asked by a clause, here and below, since these read a book whose form is not known yet.
pub fn pan_of(book: &[u8], i: usize) -> &[u8]
    requires { entry_end i ≤ length book.now }
    ensures { result.now ≡ pan_of book.now i }
{
    field(line_of(ENTRIES, book, i), PAN)
}

// Where the entry of agreement i says that its body stands.
pub fn offset_of(book: &[u8], i: usize) -> usize
    requires { entry_end i ≤ length book.now }
    ensures { result ≡ offset_of book.now i }
{
    big_endian(field(line_of(ENTRIES, book, i), OFFSET))
}

// The lease reference and the number of periods of the body at `at`.
fn body_head(book: &[u8], at: usize) -> &[u8]
    requires { at + 14 ≤ length book.now }
    ensures { result.now ≡ body_head book.now at }
{
    let end = at + 14;
    &book[at..end]
}

// How many periods the body at `at` says it has. The lease reference before that number is not read.
pub fn periods_at(book: &[u8], at: usize) -> usize
    requires { at + 14 ≤ length book.now }
    ensures { result ≡ periods_at book.now at }
{
    big_endian(field(body_head(book, at), PERIODS))
}

// Period j of the body at `at`, counted from 0.
pub fn period_of(book: &[u8], at: usize, j: usize) -> &[u8]
    requires { period_end width at j ≤ length book.now }
    ensures { result.now ≡ period_of width book.now at j }
{
    let periods = Layout {
        header: at + 14,
        line: PERIOD,
        footer: 0,
    };
    line_of(periods, book, j)
}
