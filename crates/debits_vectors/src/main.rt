// Runs the form of open debits and the taking of debits over cases from standard input, and prints one line for each.
#![tactic(auto)]

ghost use Rattle.std.specs.Prelude.{IfOk, IfSome};
ghost use Rattle.debits_vectors.specs.Held.{Fits, Holds};

use debits::{debits_sound, take_debit};
use frames::{print_line_feed, print_marks, print_number, read_part, run_cases};
use passage::WIDTH;
use std::io;
use std::io::{Read, Write};

// As many debits as a case may bring, and their bytes.
const MOST: usize = 40;

const ROOM: usize = MOST * WIDTH;

// The debits that are held from case to case, and their marks, in the fronts of the buffers: no heap.
#[derive(Drop)]
struct Held {
    debits: [u8; ROOM],
    marks: [u8; MOST],
    count: usize,
    ghost sound: { Holds count debits marks },
}

// Debits and marks: whether they are of the right form. As many are held if so, and otherwise none.
fn run_form(
    from: &mut impl Read,
    to: &mut impl Write,
    debits: &mut [u8],
    marks: &mut [u8],
) -> io::Result<Option<usize>>
    ensures { IfOk result (λ held. IfSome held (λ count. Holds count debits.new marks.new)) }
{
    let Some(size) = read_part(from, debits)? else {
        return Ok(None);
    };
    let Some(count) = read_part(from, marks)? else {
        return Ok(None);
    };
    let sound = debits_sound(&debits[0..size], &marks[0..count]);
    print_number(to, u64::from(sound))?;
    Ok(Some(if sound { count } else { 0 }))
}

// A credit: the number of the debit that it takes of those held, 0 for none.
fn run_credit(
    from: &mut impl Read,
    to: &mut impl Write,
    debits: &[u8],
    marks: &mut [u8],
    count: usize,
) -> io::Result<bool>
    requires { Fits count debits.now marks.old }
{
    let mut credit = [0u8; WIDTH];
    if read_part(from, &mut credit)? != Some(WIDTH) {
        return Ok(false);
    }
    let taken = take_debit(&debits[0..count * WIDTH], &mut marks[0..count], &credit);
    print_number(to, taken.unwrap_or(0) as u64)?;
    Ok(true)
}

impl Held {
    fn run_form(&mut self, from: &mut impl Read, to: &mut impl Write) -> io::Result<bool> {
        self.count = 0;
        let Some(count) = run_form(from, to, &mut self.debits, &mut self.marks)? else {
            return Ok(false);
        };
        self.count = count;
        Ok(true)
    }

    fn run_credit(&mut self, from: &mut impl Read, to: &mut impl Write) -> io::Result<bool> {
        let count = self.count;
        run_credit(from, to, &self.debits, &mut self.marks, count)
    }

    // The marks as they stand.
    fn run_marks(&self, to: &mut impl Write) -> io::Result<bool> {
        print_marks(to, &self.marks[0..self.count])?;
        Ok(true)
    }

    // One case of the kind; false where the kind is none of these or the case breaks off.
    fn run_case(
        &mut self,
        from: &mut impl Read,
        to: &mut impl Write,
        kind: u8,
    ) -> io::Result<bool> {
        let whole = match kind {
            b'F' => self.run_form(from, to)?,
            b'C' => self.run_credit(from, to)?,
            b'M' => self.run_marks(to)?,
            _ => false,
        };
        if whole {
            print_line_feed(to)?;
        }
        Ok(whole)
    }
}

fn main(rt: HostRuntime) -> io::Result<()> {
    let mut held = Held {
        debits: [0u8; ROOM],
        marks: [0u8; MOST],
        count: 0,
    };
    run_cases(
        &mut rt.reader(),
        &mut io::writer(&rt),
        |from, to, kind| held.run_case(from, to, kind),
    )
}
