ghost use Rattle.std.specs.Prelude.{◌≡◌, ◌+◌, ◌≤◌, length};
ghost use Rattle.lines.specs.Splice.{Put};
ghost use Rattle.tif.specs.Side.{side_text};
ghost use Rattle.tic_text.specs.Pieces.{joined};
ghost use Rattle.tic_text.specs.Text.{front_pieces, count_pieces, filler_pieces, end_pieces, header_text, FrontRoom};

use crate::columns::STEM_SENDER;
use crate::text::{put_numbers, put_texts};
use crate::values::{Received, TicHead};
use lines::{field, put_bytes, put_digits, put_run};
use tif::{NOK, Side, TIF_KIND, VERSION};

// The kind of a file that is a TIC.
pub const TIC_KIND: [u8; 3] = *b"TIC";

// The header up to the currency.
fn put_front(out: &mut [u8], at: usize, received: Received) -> usize
    requires { FrontRoom received.receiver.now received.stem.now received.moment.now at 72 out.old }
    ensures { let r = received.entry in Put (joined (front_pieces r.receiver.now r.stem.now r.moment.now)) at out.old result out.new }
{
    let Received {
        receiver,
        stem,
        moment,
    } = received;
    let sender = field(stem, STEM_SENDER);
    put_texts(
        out,
        at,
        &[
            b"0", receiver, sender, &TIC_KIND, stem, &TIF_KIND, stem, moment, &NOK,
        ],
    )
}

// CRE, DEB or "000".
pub fn put_side(out: &mut [u8], at: usize, side: Side) -> usize
    requires { at + 3 ≤ length out.old }
    ensures { Put (side_text side) at out.old result out.new }
{
    put_bytes(out, at, side.text())
}

// Records, side, and the same counts as transactions.
fn put_counts(out: &mut [u8], at: usize, head: TicHead) -> usize
    requires { at + 63 ≤ length out.old }
    ensures { Put (joined (count_pieces head)) at out.old result out.new }
{
    let mid = put_numbers(out, at, head.accepted.0, head.rejected.0);
    let mid = put_side(out, mid, head.side);
    put_numbers(out, mid, head.accepted.0, head.rejected.0)
}

// Version, blanks and zeros.
fn put_fillers(out: &mut [u8], at: usize) -> usize
    requires { at + 58 ≤ length out.old }
    ensures { Put (joined filler_pieces) at out.old result out.new }
{
    put_texts(out, at, &[&VERSION, &[b' '; 6], &[b'0'; 46]])
}

// The header from the version on.
fn put_end(out: &mut [u8], at: usize, acceptance: u64) -> usize
    requires { at + 61 ≤ length out.old }
    ensures { Put (joined (end_pieces acceptance)) at out.old result out.new }
{
    let mid = put_fillers(out, at);
    let mid = put_digits(out, mid, 2, acceptance);
    put_run(out, mid, 1, b'\n')
}

// Writes a header: what it tells of the TIF received, and its numbers.
pub fn put_header(out: &mut [u8], at: usize, received: Received, head: TicHead) -> usize
    requires { FrontRoom received.receiver.now received.stem.now received.moment.now at 196 out.old }
    ensures { let r = received.entry in Put (header_text r.receiver.now r.stem.now r.moment.now head) at out.old result out.new }
{
    let mid = put_front(out, at, received);
    let mid = put_counts(out, mid, head);
    put_end(out, mid, head.acceptance)
}
