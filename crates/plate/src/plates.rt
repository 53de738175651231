ghost use Rattle.std.specs.Prelude.{◌≡◌};
ghost use Rattle.plate.specs.Plate.{all_plate_bytes, padded_plate, is_filled, nation_class, two_of, plate_on_line, plate_in_book};

use crate::set::is_plate_byte;
use lines::{Class, all_of, place_of};

// Whether every byte may stand in a plate.
fn all_plate_bytes(s: &[u8]) -> bool
    ensures { result ≡ all_plate_bytes s.now }
{
    s.iter().all(|&b| is_plate_byte(b))
}

// Whether bytes of the set stand up to the first blank, and then blanks to the end.
#[tactic(auto, using(lines::specs::ClassLaws::place_le), unfolding(crate::specs::Plate::padded_plate, crate::specs::Plate::all_plate_bytes, lines::specs::Class::padded_with))]
fn padded_plate(plate: &[u8]) -> bool
    ensures { result ≡ padded_plate plate.now }
{
    let filled = place_of(Class::Only(b' '), plate);
    all_plate_bytes(&plate[..filled]) && all_of(Class::Only(b' '), &plate[filled..])
}

// Whether a nation is two bytes of the class.
#[tactic(auto, unfolding(crate::specs::Plate::two_of))]
fn two_of(class: Class, nation: &[u8]) -> bool
    ensures { result ≡ two_of class nation.now }
{
    nation.len() == 2 && all_of(class, nation)
}

// Whether something stands before the first blank.
#[tactic(auto, using(crate::specs::PlateLaws::filled_nothing, crate::specs::PlateLaws::filled_first))]
fn is_filled(plate: &[u8]) -> bool
    ensures { result ≡ is_filled plate.now }
{
    !plate.is_empty() && plate[0] != b' '
}

// What the nation beside a plate on a line is made of.
#[tactic(auto, unfolding(crate::specs::Plate::nation_class))]
fn nation_class(plate: &[u8]) -> Class
    ensures { result ≡ nation_class plate.now }
{
    if is_filled(plate) {
        Class::Capital
    } else {
        Class::Only(b' ')
    }
}

// Whether a TIF line may hold the plate with this nation; both may be blank.
#[tactic(auto, unfolding(crate::specs::Plate::plate_on_line))]
pub fn plate_on_line(plate: &[u8], nation: &[u8]) -> bool
    ensures { result ≡ plate_on_line plate.now nation.now }
{
    padded_plate(plate) && two_of(nation_class(plate), nation)
}

// Whether a book may hold the plate with this nation; neither may be blank.
#[tactic(auto, unfolding(crate::specs::Plate::plate_in_book))]
pub fn plate_in_book(plate: &[u8], nation: &[u8]) -> bool
    ensures { result ≡ plate_in_book plate.now nation.now }
{
    padded_plate(plate) && is_filled(plate) && two_of(Class::Capital, nation)
}
