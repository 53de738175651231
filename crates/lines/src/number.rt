ghost use Rattle.std.specs.Prelude.{true, ◌≡◌, ◌≤◌, length};
ghost use Rattle.lines.specs.Number.{value_below, all_digits, number_of, read_digits, value_of, BigEndian, Written};

use crate::class::{Class, all_of};

// The number that bytes write to a base, NOUGHT standing for 0.
fn value<const BASE: u64, const NOUGHT: u8>(s: &[u8]) -> u64
    requires { Written BASE NOUGHT s.now }
    ensures { result ≡ value_below BASE NOUGHT (length s.now) s.now }
{
    let mut v = 0;
    for &b in s {
        v = v * BASE + u64::from(b - NOUGHT);
    }
    v
}

// The number of a field of at most 15 digits, where it is digits. The length is asked by a clause, here and below, since a field is a part of any line.
#[tactic(auto, unfolding(crate::specs::Number::read_digits, crate::specs::Number::all_digits))]
pub fn read_digits(s: &[u8]) -> Option<u64>
    requires { length s.now ≤ 15 }
    ensures { result ≡ read_digits s.now }
{
    if all_of(Class::Digit, s) {
        Some(number_of(s))
    } else {
        None
    }
}

// The value of a field of at most 15 digits, and zero where it is not digits.
#[tactic(auto, unfolding(crate::specs::Number::read_digits, crate::specs::Number::value_of))]
pub fn value_of(s: &[u8]) -> u64
    requires { length s.now ≤ 15 }
    ensures { result ≡ value_of s.now }
{
    read_digits(s).unwrap_or(0)
}

// The number of a field that is known to be digits.
#[tactic(auto, unfolding(crate::specs::Number::number_of))]
pub fn number_of(s: &[u8]) -> u64
    requires { (length s.now ≤ 15) × (all_digits s.now ≡ true) }
    ensures { result ≡ number_of s.now }
{
    value::<10, b'0'>(s)
}

// Reads a big-endian number of at most four bytes.
pub fn big_endian(s: &[u8]) -> usize
    requires { length s.now ≤ 4 }
    ensures { BigEndian s.now result }
{
    value::<256, 0>(s) as usize
}
