ghost use Rattle.std.specs.Prelude.{◌≡◌, ◌≤◌, length};
ghost use Rattle.tif.specs.Name.{is_actor, is_sequence, is_file_stem, is_name};

use lines::{Class, Columns, all_of, field, is_same, read_digits};
use moment::is_date;

// The parts of a file stem: what stands between the kind and the receiver.
const STEM_ACTOR: Columns = Columns { from: 1, to: 6 };

const STEM_DATE: Columns = Columns { from: 7, to: 14 };

const STEM_SEQUENCE: Columns = Columns { from: 15, to: 18 };

// How long a file name is, its parts, and the places of its joints, columns 22 and 29.
pub const NAME_LENGTH: usize = 35;

pub const NAME_IDENTITY: Columns = Columns { from: 1, to: 21 };

pub const NAME_KIND: Columns = Columns { from: 1, to: 3 };

pub const NAME_SENDER: Columns = Columns { from: 4, to: 9 };

pub const NAME_STEM: Columns = Columns { from: 4, to: 21 };

pub const NAME_RECEIVER: Columns = Columns { from: 23, to: 28 };

pub const NAME_VERSION: Columns = Columns { from: 30, to: 35 };

const FIRST_JOINT: usize = 21;

const SECOND_JOINT: usize = 28;

// The kind of file and the version that every name and header carries.
pub const TIF_KIND: [u8; 3] = *b"TIF";

pub const VERSION: [u8; 6] = *b"130001";

// Whether the text is an actor: six digits or capitals.
#[tactic(auto, unfolding(crate::specs::Name::is_actor))]
pub fn is_actor(s: &[u8]) -> bool
    ensures { result ≡ is_actor s.now }
{
    s.len() == 6 && all_of(Class::DigitOrCapital, s)
}

// Whether the text is digits, and not all of them 0.
#[tactic(auto, unfolding(crate::specs::Name::is_sequence, lines::specs::Number::read_digits))]
fn is_sequence(s: &[u8]) -> bool
    requires { length s.now ≤ 15 }
    ensures { result ≡ is_sequence s.now }
{
    read_digits(s).is_some_and(|v| v != 0)
}

// Whether the text is an actor, a real date and a sequence of that day.
#[tactic(auto, unfolding(crate::specs::Name::is_file_stem, crate::specs::Every::every))]
pub fn is_file_stem(s: &[u8]) -> bool
    ensures { result ≡ is_file_stem s.now }
{
    s.len() == 18
        && is_actor(field(s, STEM_ACTOR))
        && is_date(field(s, STEM_DATE))
        && is_sequence(field(s, STEM_SEQUENCE))
}

// Whether the text is the name of a TIF (E1).
#[tactic(auto, unfolding(crate::specs::Name::is_name, crate::specs::Every::every))]
pub fn is_name(name: &[u8]) -> bool
    ensures { result ≡ is_name name.now }
{
    name.len() == NAME_LENGTH
        && is_same(field(name, NAME_KIND), &TIF_KIND)
        && is_file_stem(field(name, NAME_STEM))
        && name[FIRST_JOINT] == b'_'
        && is_actor(field(name, NAME_RECEIVER))
        && name[SECOND_JOINT] == b'_'
        && is_same(field(name, NAME_VERSION), &VERSION)
}
