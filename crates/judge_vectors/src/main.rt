// Runs whole calls from standard input, and prints for each its answer, the marks afterwards, the record of each line judged and all of the output lent.
#![tactic(auto)]

ghost use Rattle.std.specs.Prelude.{ℕ, ◌<◌};
ghost use Rattle.judge.specs.Records.{LineKnown};

use answers::{Answer, CallFault, FileAnswer, Inputs, Summary};
use frames::{
    print_after_space, print_bytes, print_line_feed, print_marks, print_number, read_part,
    run_cases,
};
use judge::{judge_words, lines_to_record};
use std::io;
use std::io::{Read, Write};
use tif::tif_line;
use verdicts::{Record, Verdict, record_of};

// As many lines and debits as a case may bring, with room for some too many.
const MOST: usize = 20;

fn print_size(to: &mut impl Write, size: usize) -> io::Result<()> {
    print_after_space(to, size as u64)
}

fn print_fault(to: &mut impl Write, fault: CallFault) -> io::Result<()> {
    print_bytes(to, b"E")?;
    print_number(to, u64::from(fault))
}

fn print_file_answer(to: &mut impl Write, answer: FileAnswer) -> io::Result<()> {
    print_bytes(to, b"0")?;
    print_number(to, u64::from(answer))?;
    print_bytes(to, b" ")
}

fn print_counts(to: &mut impl Write, s: Summary) -> io::Result<()> {
    print_size(to, s.lines)?;
    print_size(to, s.accepted)?;
    print_size(to, s.refused)
}

fn print_amounts(to: &mut impl Write, s: Summary) -> io::Result<()> {
    print_after_space(to, s.total.0)?;
    print_after_space(to, s.accepted_amount.0)?;
    print_after_space(to, s.refused_amount.0)
}

fn print_summary(to: &mut impl Write, s: Summary) -> io::Result<()> {
    print_file_answer(to, s.answer)?;
    print_bytes(to, s.side.text())?;
    print_counts(to, s)?;
    print_amounts(to, s)?;
    print_size(to, s.length)
}

fn print_answer(to: &mut impl Write, answer: Answer) -> io::Result<()> {
    match answer {
        Ok(s) => print_summary(to, s),
        Err(fault) => print_fault(to, fault),
    }
}

// What stands between the parts of what is printed.
fn print_stroke(to: &mut impl Write) -> io::Result<()> {
    print_bytes(to, b" /")
}

// The verdict is printed as its word.
fn print_record(to: &mut impl Write, record: Record, word: u64) -> io::Result<()> {
    print_size(to, record.number)?;
    print_after_space(to, word)?;
    print_after_space(to, record.gross.0)?;
    print_after_space(to, record.net.0)
}

fn print_line_judged(to: &mut impl Write, tif: &[u8], words: &[u64], k: usize) -> io::Result<()>
    requires { LineKnown tif.now words.now k }
{
    let word = words[k];
    print_record(
        to,
        record_of(tif_line(tif, k), k + 1, Verdict::from(word)),
        word,
    )
}

fn print_lines_judged(to: &mut impl Write, tif: &[u8], words: &[u64], n: usize) -> io::Result<()>
    requires { (k : ℕ) → k < n → LineKnown tif.now words.now k }
{
    for k in 0..n {
        print_line_judged(to, tif, words, k)?;
    }
    Ok(())
}

fn print_marks_between(to: &mut impl Write, marks: &[u8]) -> io::Result<()> {
    print_stroke(to)?;
    print_marks(to, marks)?;
    print_stroke(to)
}

fn print_output(to: &mut impl Write, out: &[u8]) -> io::Result<()> {
    print_stroke(to)?;
    print_bytes(to, out)?;
    print_line_feed(to)
}

fn run_call(
    to: &mut impl Write,
    inputs: Inputs,
    marks: &mut [u8],
    room: usize,
    out: &mut [u8],
) -> io::Result<()> {
    let mut words = [0u64; 9999];
    let answer = judge_words(inputs, marks, room, &mut words, out);
    print_answer(to, answer)?;
    print_marks_between(to, marks)?;
    print_lines_judged(to, inputs.tif, &words, lines_to_record(answer))?;
    print_output(to, out)
}

// The rest of a case: book, debits, marks, TIF, station table and output; false where it breaks off or a part is too long.
fn run_lent(
    from: &mut impl Read,
    to: &mut impl Write,
    inputs: Inputs,
    room: usize,
) -> io::Result<bool> {
    let mut book = [0u8; 4096];
    let mut debits = [0u8; 16200];
    let mut marks = [0u8; MOST];
    let mut tif = [0u8; 16500];
    let mut tst = [0u8; 3000];
    let mut out = [0u8; 16600];
    // A part that is missing counts as empty, here and below: only the last one says whether these are whole.
    let book_size = read_part(from, &mut book)?.unwrap_or(0);
    let debits_size = read_part(from, &mut debits)?.unwrap_or(0);
    let marks_size = read_part(from, &mut marks)?.unwrap_or(0);
    let tif_size = read_part(from, &mut tif)?.unwrap_or(0);
    let tst_size = read_part(from, &mut tst)?.unwrap_or(0);
    let Some(out_size) = read_part(from, &mut out)? else {
        return Ok(false);
    };
    let whole = Inputs {
        book: &book[0..book_size],
        debits: &debits[0..debits_size],
        tif: &tif[0..tif_size],
        tst: &tst[0..tst_size],
        ..inputs
    };
    run_call(
        to,
        whole,
        &mut marks[0..marks_size],
        room,
        &mut out[0..out_size],
    )?;
    Ok(true)
}

// A case begins with name, reception moment, card, received names and a part that is as long as there are records.
fn run_parts(from: &mut impl Read, to: &mut impl Write) -> io::Result<bool> {
    let mut name = [0u8; 80];
    let mut received = [0u8; 40];
    let mut card = [0u8; 40];
    let mut names = [0u8; 400];
    let mut records = [0u8; MOST];
    // A part that is missing counts as empty, as above.
    let name_size = read_part(from, &mut name)?.unwrap_or(0);
    let received_size = read_part(from, &mut received)?.unwrap_or(0);
    let card_size = read_part(from, &mut card)?.unwrap_or(0);
    let names_size = read_part(from, &mut names)?.unwrap_or(0);
    let Some(room) = read_part(from, &mut records)? else {
        return Ok(false);
    };
    let inputs = Inputs {
        name: &name[0..name_size],
        received: &received[0..received_size],
        card: &card[0..card_size],
        names: &names[0..names_size],
        book: &[],
        debits: &[],
        tif: &[],
        tst: &[],
    };
    run_lent(from, to, inputs, room)
}

fn run_case(from: &mut impl Read, to: &mut impl Write, kind: u8) -> io::Result<bool> {
    Ok(kind == b'C' && run_parts(from, to)?)
}

fn main(rt: HostRuntime) -> io::Result<()> {
    run_cases(&mut rt.reader(), &mut io::writer(&rt), run_case)
}
