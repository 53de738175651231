// Runs jobs from standard input, each a part, and prints the line of each.
#![tactic(auto)]

use frames::{print_bytes, read_part, run_cases};
use job::answer_job;
use std::io;
use std::io::{Read, Write};

fn run_case(from: &mut impl Read, to: &mut impl Write, _kind: u8) -> io::Result<bool> {
    let mut job = [0u8; 65537];
    let mut line = [0u8; 133];
    let Some(size) = read_part(from, &mut job)? else {
        return Ok(false);
    };
    let end = answer_job(&mut line, &job[0..size]);
    print_bytes(to, &line[0..end])?;
    Ok(true)
}

fn main(rt: HostRuntime) -> io::Result<()> {
    run_cases(&mut rt.reader(), &mut io::writer(&rt), run_case)
}
