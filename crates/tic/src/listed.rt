ghost use Rattle.std.specs.Prelude.{◌≡◌, ◌-◌, ◌≤◌, take, drop};
ghost use Rattle.lines.specs.Rows.{most_lines};
ghost use Rattle.tic.specs.declared.listed.ListedFault.TheVariants.{Unreadable};
ghost use Rattle.tic.specs.Listed.{listed_place, listed_line, shown_line, shown_code, shown_receiver, shown_identity, shown_moment, shown_part};

use crate::reading::read_tic;
use lines::Columns;
use tic_text::{RECEIVED_IDENTITY, RECEPTION_MOMENT, TIC, TIF_RECEIVER, TicFault, TicReading};

// Where a listed line begins in the TIC, and where its code does.
#[derive(Clone, Copy)]
pub struct ListedPlace {
    pub line: usize,
    pub code: usize,
}

// Why there is no such place: T6, or what keeps the TIC from being read.
#[derive(Clone, Copy)]
pub enum ListedFault {
    NoSuchLine,
    Unreadable(TicFault),
}

impl From<TicFault> for ListedFault {
    ghost from_gives = { λ fault e. e ≡ Unreadable fault };

    fn from(fault: TicFault) -> ListedFault {
        ListedFault::Unreadable(fault)
    }
}

// What asking for a listed line gives.
pub type Listed = Result<ListedPlace, ListedFault>;

#[tactic(auto, unfolding(crate::specs::Listed::listed_place, lines::specs::FirstOf::first_of))]
fn listed_place(listed: usize, k: usize) -> Listed
    requires { listed ≤ most_lines }
    ensures { result ≡ listed_place listed k }
{
    if k == 0 || k > listed {
        return Err(ListedFault::NoSuchLine);
    }
    let line = TIC.header + (k - 1) * TIC.line;
    Ok(ListedPlace {
        line,
        code: line + 809,
    })
}

// Listed line k, counted from 1.
#[tactic(auto, unfolding(crate::specs::Listed::listed_line))]
pub fn listed_line(tic: &[u8], k: usize) -> Listed
    ensures { result ≡ listed_line tic.now k }
{
    let values = read_tic(tic)?;
    listed_place(values.listed, k)
}

// The part from a place on, as much of it as there is.
fn part_of(s: &[u8], from: usize, width: usize) -> &[u8]
    ensures { result.now ≡ take width (drop from s.now) }
{
    let rest = &s[from.min(s.len())..];
    &rest[..width.min(rest.len())]
}

// The listed line as a part of the TIC: columns 1 to 809, and the empty part where there is no place.
pub fn shown_line(tic: &[u8], listed: Listed) -> &[u8]
    ensures { result.now ≡ shown_line tic.now listed }
{
    match listed {
        Ok(place) => part_of(tic, place.line, 809),
        Err(_) => &[],
    }
}

// Its code: columns 810 and 811. Another place and another width than the line's: what both share is part_of.
pub fn shown_code(tic: &[u8], listed: Listed) -> &[u8]
    ensures { result.now ≡ shown_code tic.now listed }
{
    match listed {
        Ok(place) => part_of(tic, place.code, 2),
        Err(_) => &[],
    }
}

// Columns of the header of a TIC that was read, and the empty part of one that was not.
fn shown_part(tic: &[u8], reading: TicReading, c: Columns) -> &[u8]
    requires { (1 ≤ c.from) × (c.from ≤ c.to) }
    ensures { result.now ≡ shown_part tic.now reading (c.from - 1) (c.to - (c.from - 1)) }
{
    match reading {
        Ok(_) => part_of(tic, c.from - 1, c.to - (c.from - 1)),
        Err(_) => &[],
    }
}

// The TIF's receiver that a TIC names.
pub fn shown_receiver(tic: &[u8], reading: TicReading) -> &[u8]
    ensures { result.now ≡ shown_receiver tic.now reading }
{
    shown_part(tic, reading, TIF_RECEIVER)
}

// Columns 1 to 21 of the TIF's name.
pub fn shown_identity(tic: &[u8], reading: TicReading) -> &[u8]
    ensures { result.now ≡ shown_identity tic.now reading }
{
    shown_part(tic, reading, RECEIVED_IDENTITY)
}

// The moment of the TIF's reception.
pub fn shown_moment(tic: &[u8], reading: TicReading) -> &[u8]
    ensures { result.now ≡ shown_moment tic.now reading }
{
    shown_part(tic, reading, RECEPTION_MOMENT)
}
