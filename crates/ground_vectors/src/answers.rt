use frames::{print_bytes, print_number};
use moment::{MomentFault, MomentPart};
use std::io;
use std::io::Write;

// The numbers that this program prints for the parts; nothing else knows them, so no From beside the type.
fn part_number(part: MomentPart) -> u64 {
    match part {
        MomentPart::Character => 2,
        MomentPart::Year => 3,
        MomentPart::Month => 4,
        MomentPart::Day => 5,
        MomentPart::Hour => 6,
        MomentPart::Minute => 7,
        MomentPart::Second => 8,
    }
}

// 0 for a real moment, 1 for another length, else the number of the first wrong part.
pub fn print_moment(to: &mut impl Write, answer: Result<(), MomentFault>) -> io::Result<()> {
    match answer {
        Ok(()) => print_number(to, 0),
        Err(MomentFault::OtherLength) => print_number(to, 1),
        Err(MomentFault::Wrong(part)) => print_number(to, part_number(part)),
    }
}

// It prints the truth, and no step depends on it.
fn print_truth(to: &mut impl Write, b: bool) -> io::Result<()> {
    print_number(to, u64::from(b))
}

pub fn print_plate(to: &mut impl Write, plate: &[u8], nation: &[u8]) -> io::Result<()> {
    print_truth(to, plate::plate_on_line(plate, nation))?;
    print_bytes(to, b" ")?;
    print_truth(to, plate::plate_in_book(plate, nation))
}

pub fn print_digits(to: &mut impl Write, answer: Option<u64>) -> io::Result<()> {
    match answer {
        Some(v) => print_number(to, v),
        None => print_bytes(to, b"-"),
    }
}
