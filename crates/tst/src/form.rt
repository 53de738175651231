ghost use Rattle.std.specs.Prelude.{◌≡◌, length};
ghost use Rattle.lines.specs.Rows.{Counted};
ghost use Rattle.tst.specs.Columns.{tst_layout, header_width, row_width, footer_width};
ghost use Rattle.tst.specs.Form.{is_lent, header_formed, station_formed, stations_formed, footer_formed, rows_formed, table_sound};

use crate::columns::{ACTOR, LANE, RECORD_COUNT, STATION, STATION_SPANS, TST, VERSION};
use chains::{Rows, all_different};
use lines::{
    Class, Count, all_of, field, footer_of, framed_lines, header_of, is_same, line_of, read_digits,
};

const VERSION_TEXT: [u8; 6] = *b"500001";

// Whether a table is lent: an empty one means that none is.
#[tactic(auto, unfolding(crate::specs::Form::is_lent))]
pub fn is_lent(tst: &[u8]) -> bool
    ensures { result ≡ is_lent tst.now }
{
    !tst.is_empty()
}

// Whether a header is of the right form and states so many lines.
#[tactic(auto, unfolding(crate::specs::Form::header_formed, lines::specs::Number::read_digits))]
fn header_formed(header: &[u8], lines: Count) -> bool
    requires { length header.now ≡ header_width }
    ensures { result ≡ header_formed header.now lines.0 }
{
    header[0] == b'0'
        && is_same(field(header, VERSION), &VERSION_TEXT)
        && read_digits(field(header, RECORD_COUNT)) == Some(lines.0)
}

// Whether a line is of the right form.
#[tactic(auto, unfolding(crate::specs::Form::station_formed, lines::specs::Number::all_digits))]
fn station_formed(row: &[u8]) -> bool
    requires { length row.now ≡ row_width }
    ensures { result ≡ station_formed row.now }
{
    row[0] == b'1'
        && all_of(Class::DigitOrCapital, field(row, ACTOR))
        && all_of(Class::Digit, field(row, STATION))
        && all_of(Class::Digit, field(row, LANE))
}

// Whether each of m lines is of the right form. No `all` over a range: its closure would have to show how long each line is.
#[tactic(auto, using(lines::specs::BelowLaws::all_zero, lines::specs::BelowLaws::all_more, crate::specs::FormLaws::row_ends), unfolding(crate::specs::Form::stations_formed, crate::specs::Form::station_formed_at))]
fn stations_formed(tst: &[u8], m: usize) -> bool
    requires { Counted tst_layout (length tst.now) m }
    ensures { result ≡ stations_formed tst.now m }
{
    for k in 0..m {
        if !station_formed(line_of(TST, tst, k)) {
            return false;
        }
    }
    true
}

// Whether a footer is of the right form.
#[tactic(auto, unfolding(crate::specs::Form::footer_formed))]
fn footer_formed(footer: &[u8]) -> bool
    requires { length footer.now ≡ footer_width }
    ensures { result ≡ footer_formed footer.now }
{
    footer[0] == b'2'
}

// Whether header, lines and footer of a table of m lines are of the right form, and no triple stands in it twice.
#[tactic(auto, using(crate::specs::FormLaws::counted_long, crate::specs::FormLaws::foot_length), unfolding(crate::specs::Form::rows_formed))]
fn rows_formed(tst: &[u8], m: usize) -> bool
    requires { Counted tst_layout (length tst.now) m }
    ensures { result ≡ rows_formed tst.now m }
{
    let rows = Rows {
        layout: TST,
        file: tst,
        spans: &STATION_SPANS,
        count: m,
    };
    header_formed(header_of(TST, tst), Count(m as u64))
        && stations_formed(tst, m)
        && footer_formed(footer_of(TST, tst, m))
        && all_different(rows)
}

// Whether no table is lent, or one of the right form (E8).
#[tactic(auto, using(crate::specs::FormLaws::framed_counted), unfolding(crate::specs::Form::table_sound, crate::specs::Form::table_formed, crate::specs::Form::formed_with))]
pub fn table_sound(tst: &[u8]) -> bool
    ensures { result ≡ table_sound tst.now }
{
    if !is_lent(tst) {
        return true;
    }
    let Some(m) = framed_lines(TST, tst) else {
        return false;
    };
    rows_formed(tst, m)
}
