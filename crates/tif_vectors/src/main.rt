// Runs name, received names and acceptance over cases from standard input, and prints one line for each.
#![tactic(auto)]

use frames::{print_after_space, print_bytes, print_line_feed, read_part, run_cases};
use std::io;
use std::io::{Read, Write};
use tif::{FileFault, Whole, acceptance_of, is_name, names_whole, side_of};

fn print_whole(to: &mut impl Write, whole: Whole) -> io::Result<()> {
    print_bytes(to, b"00")?;
    print_after_space(to, whole.lines as u64)?;
    print_after_space(to, whole.total.0)
}

fn print_acceptance(to: &mut impl Write, acceptance: Result<Whole, FileFault>) -> io::Result<()> {
    match acceptance {
        Ok(whole) => print_whole(to, whole),
        Err(FileFault::AlreadyReceived) => print_bytes(to, b"02"),
        Err(FileFault::OutOfForm) => print_bytes(to, b"05"),
        Err(FileFault::CountsDiffer) => print_bytes(to, b"03"),
        Err(FileFault::TotalDiffers) => print_bytes(to, b"04"),
    }
}

// The call number or the acceptance, and then the side.
fn print_answer(to: &mut impl Write, name: &[u8], names: &[u8], tif: &[u8]) -> io::Result<()> {
    if !is_name(name) {
        return print_bytes(to, b"E1");
    }
    if !names_whole(names) {
        return print_bytes(to, b"E4");
    }
    print_acceptance(to, acceptance_of(name, names, tif))?;
    print_bytes(to, b" ")?;
    print_bytes(to, side_of(tif).text())
}

// A case of a name, received names and a TIF; false where it breaks off or is too long.
fn run_file(from: &mut impl Read, to: &mut impl Write) -> io::Result<bool> {
    let mut name = [0u8; 128];
    let mut names = [0u8; 1024];
    let mut tif = [0u8; 8192];
    let Some(name_size) = read_part(from, &mut name)? else {
        return Ok(false);
    };
    let Some(names_size) = read_part(from, &mut names)? else {
        return Ok(false);
    };
    let Some(tif_size) = read_part(from, &mut tif)? else {
        return Ok(false);
    };
    print_answer(
        to,
        &name[0..name_size],
        &names[0..names_size],
        &tif[0..tif_size],
    )?;
    Ok(true)
}

fn run_case(from: &mut impl Read, to: &mut impl Write, kind: u8) -> io::Result<bool> {
    let whole = kind == b'A' && run_file(from, to)?;
    if whole {
        print_line_feed(to)?;
    }
    Ok(whole)
}

fn main(rt: HostRuntime) -> io::Result<()> {
    run_cases(&mut rt.reader(), &mut io::writer(&rt), run_case)
}
