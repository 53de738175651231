ghost use Rattle.std.specs.Prelude.{◌≡◌, ℕ};
ghost use Rattle.lines.specs.Class.{is_of, all_of, place_of, filled_with};
ghost use Rattle.lines.specs.Ranges.{in_ranges};

// A class of characters.
#[derive(Clone, Copy)]
pub enum Class {
    Digit,
    Capital,
    DigitOrCapital,
    Only(u8),
}

// The bytes of a class as two ranges, each its first and its last byte, so that a loop does not ask at each byte for the class. A class of one range has it twice.
#[derive(Clone, Copy)]
struct Ranges {
    one: (u8, u8),
    other: (u8, u8),
}

const DIGITS: (u8, u8) = (b'0', b'9');

const CAPITALS: (u8, u8) = (b'A', b'Z');

#[tactic(auto, unfolding(crate::specs::Ranges::in_ranges, crate::specs::Class::is_of, crate::specs::Class::is_digit, crate::specs::Class::is_capital))]
fn ranges_of(class: Class) -> Ranges
    ensures { (b : ℕ) → in_ranges result b ≡ is_of class b }
{
    let (one, other) = match class {
        Class::Digit => (DIGITS, DIGITS),
        Class::Capital => (CAPITALS, CAPITALS),
        Class::DigitOrCapital => (DIGITS, CAPITALS),
        Class::Only(x) => ((x, x), (x, x)),
    };
    Ranges { one, other }
}

impl Ranges {
    #[tactic(auto, unfolding(crate::specs::Ranges::in_ranges))]
    fn contain(self, b: u8) -> bool
        ensures { result ≡ in_ranges self b }
    {
        self.one.0 <= b && b <= self.one.1 || self.other.0 <= b && b <= self.other.1
    }
}

// Whether a byte is of the class.
pub fn is_of(class: Class, b: u8) -> bool
    ensures { result ≡ is_of class b }
{
    ranges_of(class).contain(b)
}

// Whether every byte is of the class. It does not stop at one that is not, so that many bytes are tested at a time.
pub fn all_of(class: Class, s: &[u8]) -> bool
    ensures { result ≡ all_of class s.now }
{
    let ranges = ranges_of(class);
    let mut all = true;
    for &b in s {
        all &= ranges.contain(b);
    }
    all
}

// The first place with a byte of the class, and the length where there is none. The length and no Option, since callers cut the text there in either case.
pub fn place_of(class: Class, s: &[u8]) -> usize
    ensures { result ≡ place_of class s.now }
{
    let ranges = ranges_of(class);
    for (i, &b) in s.iter().enumerate() {
        if ranges.contain(b) {
            return i;
        }
    }
    s.len()
}

// Whether one or more bytes of the class stand first, and then blanks to the end.
#[tactic(auto, using(crate::specs::ClassLaws::place_le), unfolding(crate::specs::Class::filled_with, crate::specs::Class::padded_with, crate::specs::Class::all_of))]
pub fn filled_with(class: Class, s: &[u8]) -> bool
    ensures { result ≡ filled_with class s.now }
{
    let filled = place_of(Class::Only(b' '), s);
    filled > 0 && all_of(class, &s[..filled]) && all_of(Class::Only(b' '), &s[filled..])
}
