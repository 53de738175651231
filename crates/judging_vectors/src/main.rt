// Judges files from standard input, each with its book, its debits and their marks, and prints for each its words, the marks afterwards and the sums.
#![tactic(auto)]

ghost use Rattle.std.specs.Prelude.{◌≡◌, true, length};
ghost use Rattle.book.specs.Form.{book_sound};
ghost use Rattle.book.specs.Layout.{width};
ghost use Rattle.judging.specs.Steps.{Given};
ghost use Rattle.judging_vectors.specs.Cases.{Ready};

use book::check_book;
use debits::debits_sound;
use frames::{
    print_after_space, print_bytes, print_line_feed, print_marks, print_number, read_part,
    run_cases,
};
use judging::{Judging, Sums, sums_of};
use lines::field;
use std::io;
use std::io::{Read, Write};
use tif::{NAME_SENDER, acceptance_of, side_of};

// As many lines as a file may bring.
const MOST: usize = 16;

// What a case brings for reading; its marks are lent for writing.
#[derive(Clone, Copy)]
struct Case<'a> {
    // The name of the TIF.
    name: &'a [u8],
    book: &'a [u8],
    debits: &'a [u8],
    tif: &'a [u8],
}

fn print_word(to: &mut impl Write, word: u64) -> io::Result<()> {
    print_number(to, word)?;
    print_bytes(to, b" ")
}

fn print_words(to: &mut impl Write, words: &[u64]) -> io::Result<()> {
    for &word in words {
        print_word(to, word)?;
    }
    Ok(())
}

// What stands between the words and the marks.
fn print_stroke(to: &mut impl Write) -> io::Result<()> {
    print_bytes(to, b"/")
}

fn print_sums(to: &mut impl Write, sums: Sums) -> io::Result<()> {
    print_after_space(to, sums.accepted.count.0)?;
    print_after_space(to, sums.refused.count.0)?;
    print_after_space(to, sums.accepted.amount.0)?;
    print_after_space(to, sums.refused.amount.0)?;
    print_line_feed(to)
}

// Judges as many lines of the file as there are words, with no station table lent.
fn run_lines(
    to: &mut impl Write,
    case: Case<'_>,
    marks: &mut [u8],
    words: &mut [u64],
) -> io::Result<()>
    requires { (length case.name.now ≡ 35) × Given case.book.now case.debits.now marks.old case.tif.now (length words.old) × Ready case.tif.now (length words.old) }
{
    let judging = Judging {
        side: side_of(case.tif),
        sender: field(case.name, NAME_SENDER),
        book: case.book,
        debits: case.debits,
        tif: case.tif,
        tst: &[],
    };
    judging.judge_lines(marks, words);
    print_words(to, words)?;
    print_stroke(to)?;
    print_marks(to, marks)?;
    print_sums(to, sums_of(case.tif, words))
}

// Judges the file, once its book is known to be sound; false where something else is not, or the lines are too many.
fn run_sound(
    to: &mut impl Write,
    case: Case<'_>,
    marks: &mut [u8],
    words: &mut [u64],
) -> io::Result<bool>
    requires { book_sound width case.book.now ≡ true }
{
    if case.name.len() != 35 || !debits_sound(case.debits, marks) {
        return Ok(false);
    }
    let Ok(whole) = acceptance_of(case.name, &[], case.tif) else {
        return Ok(false);
    };
    let n = whole.lines;
    if n > words.len() {
        return Ok(false);
    }
    run_lines(to, case, marks, &mut words[0..n])?;
    Ok(true)
}

fn run_file(to: &mut impl Write, case: Case<'_>, marks: &mut [u8]) -> io::Result<bool> {
    let mut words = [0u64; MOST];
    Ok(check_book(case.book) && run_sound(to, case, marks, &mut words)?)
}

// A case of a name, a book, debits, marks and a TIF; false where it breaks off or a part is too long.
fn run_parts(from: &mut impl Read, to: &mut impl Write) -> io::Result<bool> {
    let mut name = [0u8; 35];
    let mut book = [0u8; 4096];
    let mut debits = [0u8; 12960];
    let mut marks = [0u8; MOST];
    let mut tif = [0u8; 13230];
    // A part that is missing counts as empty here: only the last one says whether the case is whole.
    let name_size = read_part(from, &mut name)?.unwrap_or(0);
    let book_size = read_part(from, &mut book)?.unwrap_or(0);
    let debits_size = read_part(from, &mut debits)?.unwrap_or(0);
    let marks_size = read_part(from, &mut marks)?.unwrap_or(0);
    let Some(tif_size) = read_part(from, &mut tif)? else {
        return Ok(false);
    };
    let case = Case {
        name: &name[0..name_size],
        book: &book[0..book_size],
        debits: &debits[0..debits_size],
        tif: &tif[0..tif_size],
    };
    run_file(to, case, &mut marks[0..marks_size])
}

fn run_case(from: &mut impl Read, to: &mut impl Write, kind: u8) -> io::Result<bool> {
    Ok(kind == b'J' && run_parts(from, to)?)
}

fn main(rt: HostRuntime) -> io::Result<()> {
    run_cases(&mut rt.reader(), &mut io::writer(&rt), run_case)
}
