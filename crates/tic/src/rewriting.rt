ghost use Rattle.std.specs.Prelude.{◌≡◌, ◌+◌, ◌≤◌, length};
ghost use Rattle.lines.specs.Below.{join_below};
ghost use Rattle.lines.specs.Splice.{Put};
ghost use Rattle.tic_text.specs.Columns.{shown_part, code_part};
ghost use Rattle.tic_text.specs.Text.{listed_text, listed_at, tic_text};
ghost use Rattle.tic.specs.declared.rewriting.RewriteFault.TheVariants.{Unreadable};
ghost use Rattle.tic.specs.Rewriting.{tic_of, RowRoom, LinesRoom, WholeRoom, Rewrites};

use crate::reading::read_tic;
use lines::{field, header_of, line_of};
use tic_text::{
    CODE, RECEIVED_STEM, RECEPTION_MOMENT, Received, SHOWN, TIC, TIF_RECEIVER, TicFault, TicValues,
    put_footer, put_header, put_listed,
};

// Why nothing was written: what keeps the TIC from being read, or E7.
#[derive(Clone, Copy)]
pub enum RewriteFault {
    Unreadable(TicFault),
    TooShort,
}

impl From<TicFault> for RewriteFault {
    ghost from_gives = { λ fault e. e ≡ Unreadable fault };

    fn from(fault: TicFault) -> RewriteFault {
        RewriteFault::Unreadable(fault)
    }
}

// A listed line as it was read, written again.
fn put_row(out: &mut [u8], at: usize, row: &[u8]) -> usize
    requires { RowRoom row.now at out.old }
    ensures { Put (listed_text (shown_part row.now) (code_part row.now)) at out.old result out.new }
{
    put_listed(out, at, field(row, SHOWN), field(row, CODE))
}

// The first n listed lines.
fn put_rows(out: &mut [u8], from: usize, tic: &[u8], n: usize) -> usize
    requires { LinesRoom tic.now n from out.old }
    ensures { Put (join_below n (listed_at (tic_of tic.now))) from out.old result out.new }
{
    let mut at = from;
    for k in 0..n {
        at = put_row(out, at, line_of(TIC, tic, k));
    }
    at
}

// The TIC that was read, from its values.
fn put_tic(out: &mut [u8], tic: &[u8], values: TicValues) -> usize
    requires { WholeRoom tic.now values out.old }
    ensures { Put (tic_text (tic_of tic.now)) 0 out.old result out.new }
{
    let header = header_of(TIC, tic);
    let received = Received {
        receiver: field(header, TIF_RECEIVER),
        stem: field(header, RECEIVED_STEM),
        moment: field(header, RECEPTION_MOMENT),
    };
    let at = put_header(out, 0, received, values.head);
    let at = put_rows(out, at, tic, values.listed);
    put_footer(out, at, values.sums)
}

// Reads a TIC and writes what was read, and tells the length written: nothing is written unless it reads and out is long enough.
pub fn rewrite_tic(tic: &[u8], out: &mut [u8]) -> Result<usize, RewriteFault>
    ensures { Rewrites tic.now out.old result out.new }
{
    let values = read_tic(tic)?;
    if out.len() < tic.len() {
        return Err(RewriteFault::TooShort);
    }
    Ok(put_tic(out, tic, values))
}
