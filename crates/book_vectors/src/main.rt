// Runs the form of agreement books and what covers a passage over cases from standard input, and prints one line for each.
#![tactic(auto)]

ghost use Rattle.std.specs.Prelude.{◌≡◌, true};
ghost use Rattle.std.specs.Option.{ForSome};
ghost use Rattle.book.specs.Layout.{width};
ghost use Rattle.book.specs.Form.{book_sound};
ghost use Rattle.book_vectors.specs.Held.{IsBook};

use book::check_book;
use cover::{Detected, Place, cover_at};
use frames::{print_after_space, print_line_feed, print_number, read_part, run_cases};
use std::io;
use std::io::{Read, Write};

// One byte more than a book may have.
const ROOM: usize = 1048577;

fn print_place(to: &mut impl Write, agreement: usize, period: usize) -> io::Result<()> {
    print_number(to, agreement as u64)?;
    print_after_space(to, period as u64)?;
    print_line_feed(to)
}

fn print_cover(to: &mut impl Write, cover: Option<Place>) -> io::Result<()> {
    match cover {
        Some(place) => print_place(to, place.agreement, place.period),
        None => print_place(to, 0, 0),
    }
}

// The book that is held from case to case, in the front of the buffer, once one was sound: no heap.
#[derive(Drop)]
struct Held {
    bytes: [u8; ROOM],
    size: Option<usize>,
    ghost sound: { ForSome size (IsBook bytes) },
}

// Reads a part that has to fill buf.
fn read_field(from: &mut impl Read, buf: &mut [u8]) -> io::Result<bool> {
    Ok(read_part(from, buf)? == Some(buf.len()))
}

// A question: PAN, moment, plate and nation, asked of a sound book.
fn run_question(from: &mut impl Read, to: &mut impl Write, book: &[u8]) -> io::Result<bool>
    requires { book_sound width book.now ≡ true }
{
    let mut pan = [0u8; 19];
    let mut moment = [0u8; 14];
    let mut plate = [0u8; 10];
    let mut nation = [0u8; 2];
    let whole = read_field(from, &mut pan)?
        && read_field(from, &mut moment)?
        && read_field(from, &mut plate)?
        && read_field(from, &mut nation)?;
    if whole {
        let detected = Detected {
            moment: &moment,
            plate: &plate,
            nation: &nation,
        };
        print_cover(to, cover_at(book, &pan, detected))?;
    }
    Ok(whole)
}

impl Held {
    // A book: 1 where it is sound, and then it is held, and 0 where it is not.
    fn run_book(&mut self, from: &mut impl Read, to: &mut impl Write) -> io::Result<bool> {
        self.size = None;
        let Some(size) = read_part(from, &mut self.bytes)? else {
            return Ok(false);
        };
        let sound = check_book(&self.bytes[..size]);
        if sound {
            self.size = Some(size);
        }
        print_number(to, u64::from(sound))?;
        print_line_feed(to)?;
        Ok(true)
    }

    // A book, or a question on the book that is held; false where the case is neither or breaks off.
    fn run_case(
        &mut self,
        from: &mut impl Read,
        to: &mut impl Write,
        kind: u8,
    ) -> io::Result<bool> {
        match (kind, self.size) {
            (b'B', _) => self.run_book(from, to),
            (b'Q', Some(size)) => run_question(from, to, &self.bytes[..size]),
            _ => Ok(false),
        }
    }
}

fn main(rt: HostRuntime) -> io::Result<()> {
    let mut held = Held {
        bytes: [0u8; ROOM],
        size: None,
    };
    run_cases(&mut rt.reader(), &mut io::writer(&rt), |from, to, kind| {
        held.run_case(from, to, kind)
    })
}
