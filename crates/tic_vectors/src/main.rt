// Reads, shows listed lines of, and rewrites TICs from standard input, and prints one line for each case.
#![tactic(auto)]

use frames::{print_after_space, print_bytes, print_line_feed, print_number, read_part, run_cases};
use std::io;
use std::io::{Read, Write};
use tic::{ListedFault, ListedPlace, RewriteFault, listed_line, read_tic, rewrite_tic};
use tic_text::{TicFault, TicValues};

// The longest TIC of a case, and the longest output.
const LONGEST: usize = 8192;

fn print_fault(to: &mut impl Write, fault: TicFault) -> io::Result<()> {
    print_bytes(to, b"T")?;
    print_number(to, u64::from(u32::from(fault)))
}

fn print_values(to: &mut impl Write, values: TicValues) -> io::Result<()> {
    print_bytes(to, b"0")?;
    print_number(to, values.head.acceptance)?;
    print_bytes(to, b" ")?;
    print_bytes(to, values.head.side.text())?;
    print_after_space(to, values.head.accepted.0)?;
    print_after_space(to, values.head.rejected.0)?;
    print_after_space(to, values.listed as u64)?;
    print_after_space(to, values.sums.accepted.0)?;
    print_after_space(to, values.sums.rejected.0)
}

fn print_reading(to: &mut impl Write, tic: &[u8]) -> io::Result<()> {
    match read_tic(tic) {
        Ok(values) => print_values(to, values),
        Err(fault) => print_fault(to, fault),
    }
}

fn print_place(to: &mut impl Write, place: ListedPlace) -> io::Result<()> {
    print_number(to, place.line as u64)?;
    print_after_space(to, place.code as u64)
}

fn print_listed(to: &mut impl Write, tic: &[u8], k: usize) -> io::Result<()> {
    match listed_line(tic, k) {
        Ok(place) => print_place(to, place),
        Err(ListedFault::NoSuchLine) => print_bytes(to, b"T6"),
        Err(ListedFault::Unreadable(fault)) => print_fault(to, fault),
    }
}

// The length written, where the bytes written are those that were read.
fn print_written(to: &mut impl Write, tic: &[u8], out: &[u8], n: usize) -> io::Result<()> {
    if out.get(0..n) == Some(tic) {
        print_number(to, n as u64)
    } else {
        print_bytes(to, b"DIFFERS")
    }
}

fn print_rewritten(to: &mut impl Write, tic: &[u8], out: &mut [u8]) -> io::Result<()> {
    match rewrite_tic(tic, out) {
        Ok(n) => print_written(to, tic, out, n),
        Err(RewriteFault::Unreadable(fault)) => print_fault(to, fault),
        Err(RewriteFault::TooShort) => print_bytes(to, b"E7"),
    }
}

fn run_read(from: &mut impl Read, to: &mut impl Write) -> io::Result<bool> {
    let mut tic = [0u8; LONGEST];
    let Some(size) = read_part(from, &mut tic)? else {
        return Ok(false);
    };
    print_reading(to, &tic[0..size])?;
    Ok(true)
}

// The number that stands in a part of four bytes.
fn read_number(from: &mut impl Read) -> io::Result<Option<usize>> {
    let mut four = [0u8; 4];
    if read_part(from, &mut four)? != Some(4) {
        return Ok(None);
    }
    Ok(Some(lines::big_endian(&four)))
}

fn run_listed(from: &mut impl Read, to: &mut impl Write) -> io::Result<bool> {
    let mut tic = [0u8; LONGEST];
    let Some(size) = read_part(from, &mut tic)? else {
        return Ok(false);
    };
    let Some(k) = read_number(from)? else {
        return Ok(false);
    };
    print_listed(to, &tic[0..size], k)?;
    Ok(true)
}

fn run_rewritten(from: &mut impl Read, to: &mut impl Write) -> io::Result<bool> {
    let mut tic = [0u8; LONGEST];
    let mut out = [0u8; LONGEST];
    let Some(size) = read_part(from, &mut tic)? else {
        return Ok(false);
    };
    let Some(room) = read_number(from)? else {
        return Ok(false);
    };
    if room > LONGEST {
        return Ok(false);
    }
    print_rewritten(to, &tic[0..size], &mut out[0..room])?;
    Ok(true)
}

fn run_case(from: &mut impl Read, to: &mut impl Write, kind: u8) -> io::Result<bool> {
    let whole = match kind {
        b'R' => run_read(from, to)?,
        b'L' => run_listed(from, to)?,
        b'W' => run_rewritten(from, to)?,
        _ => false,
    };
    if whole {
        print_line_feed(to)?;
    }
    Ok(whole)
}

fn main(rt: HostRuntime) -> io::Result<()> {
    run_cases(&mut rt.reader(), &mut io::writer(&rt), run_case)
}
