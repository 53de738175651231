// Runs the functions of lines, moment and plate over cases from standard input, and prints one line for each.
#![tactic(auto)]

mod answers;

use frames::{print_line_feed, read_part, run_cases};
use moment::{MomentFault, check_date, check_moment};
use std::io;
use std::io::{Read, Write};

// A moment, or a date by the same rule: whether it is real, or what is wrong with it.
fn run_checked<F: Fn(&[u8]) -> Result<(), MomentFault>>(
    from: &mut impl Read,
    to: &mut impl Write,
    check: F,
) -> io::Result<bool>
    requires { F.IsAlwaysCallable check }
{
    let mut text = [0u8; 64];
    let Some(n) = read_part(from, &mut text)? else {
        return Ok(false);
    };
    answers::print_moment(to, check(&text[0..n]))?;
    Ok(true)
}

// A plate and its nation: whether a line may hold them, and whether the book may.
fn run_plate(from: &mut impl Read, to: &mut impl Write) -> io::Result<bool> {
    let mut plate = [0u8; 64];
    let mut nation = [0u8; 64];
    let Some(p) = read_part(from, &mut plate)? else {
        return Ok(false);
    };
    let Some(n) = read_part(from, &mut nation)? else {
        return Ok(false);
    };
    answers::print_plate(to, &plate[0..p], &nation[0..n])?;
    Ok(true)
}

// A field of at most 15 bytes: its value, where it is digits.
fn run_digits(from: &mut impl Read, to: &mut impl Write) -> io::Result<bool> {
    let mut digits = [0u8; 15];
    let Some(n) = read_part(from, &mut digits)? else {
        return Ok(false);
    };
    answers::print_digits(to, lines::read_digits(&digits[0..n]))?;
    Ok(true)
}

// One case of the kind; false where the kind is none of these or the case breaks off.
fn run_case(from: &mut impl Read, to: &mut impl Write, kind: u8) -> io::Result<bool> {
    let whole = match kind {
        b'M' => run_checked(from, to, check_moment)?,
        b'D' => run_checked(from, to, check_date)?,
        b'P' => run_plate(from, to)?,
        b'N' => run_digits(from, to)?,
        _ => false,
    };
    if whole {
        print_line_feed(to)?;
    }
    Ok(whole)
}

fn main(rt: HostRuntime) -> io::Result<()> {
    run_cases(&mut rt.reader(), &mut io::writer(&rt), run_case)
}
