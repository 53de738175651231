ghost use Rattle.std.specs.Prelude.{◌≡◌, cond, length};
ghost use Rattle.lines.specs.Columns.{field_of, Inside};
ghost use Rattle.lines.specs.Number.{all_digits};
ghost use Rattle.plate.specs.Plate.{plate_on_line};
ghost use Rattle.passage.specs.Passage.{line_width};
ghost use Rattle.verdicts.specs.LineTests.{is_of_side, is_lawful_type, fields_in_form, is_from_sender, is_known_fuel, is_known_vehicle, plates_in_form, test_line};

use crate::tables::{is_emission, is_fuel, is_tariff_class, is_type};
use crate::verdict::Verdict;
use lines::{Class, Columns, all_of, field, is_same};
use moment::is_moment;
use passage::{
    COUNTER, DECLARED_NATION, DECLARED_PLATE, DETECTED_NATION, DETECTED_PLATE, EMISSION,
    EXIT_ACTOR, EXIT_MOMENT, FUEL, LANE, NET_FEE, STATION, TARIFF_CLASS, TYPE_OF_TRANSIT,
};
use plate::plate_on_line;
use tif::Side;

// A fuel is a code and then yes or no.
const FUEL_CODE: Columns = Columns { from: 1, to: 2 };

// Whether a field is digits.
#[tactic(auto, unfolding(lines::specs::Number::all_digits))]
fn has_digits(line: &[u8], c: Columns) -> bool
    requires { Inside c (length line.now) }
    ensures { result ≡ all_digits (field_of c line.now) }
{
    all_of(Class::Digit, field(line, c))
}

// Whether a field is a plate in form, with its nation.
fn has_plate(line: &[u8], plate: Columns, nation: Columns) -> bool
    requires { Inside plate (length line.now) × Inside nation (length line.now) }
    ensures { result ≡ plate_on_line (field_of plate line.now) (field_of nation line.now) }
{
    plate_on_line(field(line, plate), field(line, nation))
}

// Whether a file of this side has types that begin with this letter.
fn is_of_side(side: Side, letter: u8) -> bool
    ensures { result ≡ is_of_side side letter }
{
    match side {
        Side::Credit => letter == b'R',
        Side::Debit => matches!(letter, b'C' | b'D'),
        Side::Neither => false,
    }
}

// L1: whether the type is listed, and one of the file's side. That a line has its width is asked by a clause, here and below, since lines are lent as parts of a file and by any caller.
#[tactic(auto, unfolding(crate::specs::LineTests::is_lawful_type))]
pub fn is_lawful_type(line: &[u8], side: Side) -> bool
    requires { length line.now ≡ line_width }
    ensures { result ≡ is_lawful_type side line.now }
{
    is_type(field(line, TYPE_OF_TRANSIT)) && is_of_side(side, line[1])
}

// L2: whether the exit moment is real, and station, lane, counter and fee without VAT are digits.
#[tactic(auto, unfolding(crate::specs::LineTests::fields_in_form, tif::specs::Every::every))]
pub fn fields_in_form(line: &[u8]) -> bool
    requires { length line.now ≡ line_width }
    ensures { result ≡ fields_in_form line.now }
{
    is_moment(field(line, EXIT_MOMENT))
        && has_digits(line, STATION)
        && has_digits(line, LANE)
        && has_digits(line, COUNTER)
        && has_digits(line, NET_FEE)
}

// L3: whether the exit actor is the sender.
#[tactic(auto, unfolding(crate::specs::LineTests::is_from_sender))]
pub fn is_from_sender(line: &[u8], sender: &[u8]) -> bool
    requires { length line.now ≡ line_width }
    ensures { result ≡ is_from_sender sender.now line.now }
{
    is_same(field(line, EXIT_ACTOR), sender)
}

// Whether a fuel of three bytes is a listed code followed by Y or N.
#[tactic(auto, using(lines::specs::Tests::tests), unfolding(crate::specs::LineTests::is_known_fuel))]
fn is_known_fuel(fuel: &[u8]) -> bool
    requires { length fuel.now ≡ 3 }
    ensures { result ≡ is_known_fuel fuel.now }
{
    is_fuel(field(fuel, FUEL_CODE)) && matches!(fuel[2], b'Y' | b'N')
}

// L4: whether tariff class, emission and fuel are known.
#[tactic(auto, unfolding(crate::specs::LineTests::is_known_vehicle, tif::specs::Every::every))]
pub fn is_known_vehicle(line: &[u8]) -> bool
    requires { length line.now ≡ line_width }
    ensures { result ≡ is_known_vehicle line.now }
{
    is_tariff_class(field(line, TARIFF_CLASS))
        && is_emission(field(line, EMISSION))
        && is_known_fuel(field(line, FUEL))
}

// L5: whether both plates are in form, each with its nation.
#[tactic(auto, unfolding(crate::specs::LineTests::plates_in_form, tif::specs::Every::every))]
pub fn plates_in_form(line: &[u8]) -> bool
    requires { length line.now ≡ line_width }
    ensures { result ≡ plates_in_form line.now }
{
    has_plate(line, DECLARED_PLATE, DECLARED_NATION)
        && has_plate(line, DETECTED_PLATE, DETECTED_NATION)
}

// Err with the verdict unless the test holds.
fn unless(holds: bool, verdict: Verdict) -> Result<(), Verdict>
    ensures { result ≡ cond holds (Ok tt) (Err verdict) }
{
    if holds { Ok(()) } else { Err(verdict) }
}

// Err is the first of L1, L2, L3, L9, L4 and L5 that a line fails; whether its station is known is told.
#[tactic(auto, using(lines::specs::Tests::tests), unfolding(crate::specs::LineTests::test_line, lines::specs::FirstOf::first_of))]
pub fn test_line(line: &[u8], side: Side, sender: &[u8], known: bool) -> Result<(), Verdict>
    requires { length line.now ≡ line_width }
    ensures { result ≡ test_line side sender.now known line.now }
{
    unless(is_lawful_type(line, side), Verdict::WrongType)?;
    unless(fields_in_form(line), Verdict::FieldOutOfForm)?;
    unless(is_from_sender(line, sender), Verdict::OtherActor)?;
    unless(known, Verdict::UnknownStation)?;
    unless(is_known_vehicle(line), Verdict::UnknownVehicle)?;
    unless(plates_in_form(line), Verdict::PlateOutOfForm)
}
