ghost use Rattle.std.specs.Prelude.{◌≡◌};
ghost use Rattle.tic_parts.specs.Reading.{read_tic};

use lines::{footer_of, framed_lines, header_of};
use tic_parts::{
    counts_agree, footer_formed, head_of, header_sound, lines_formed, listed_sum, sums_fit, sums_of,
};
use tic_text::{TIC, TicFault, TicReading, TicValues};

// Reads a TIC: T1 to T5, or its values.
#[tactic(auto, unfolding(tic_parts::specs::Reading::read_tic, lines::specs::FirstOf::first_of))]
pub fn read_tic(tic: &[u8]) -> TicReading
    ensures { result ≡ read_tic tic.now }
{
    let n = framed_lines(TIC, tic).ok_or(TicFault::Framing)?;
    let header = header_of(TIC, tic);
    if !header_sound(header) {
        return Err(TicFault::Header);
    }
    let head = head_of(header);
    if !counts_agree(header, head, n) {
        return Err(TicFault::Counts);
    }
    if !lines_formed(tic, n) {
        return Err(TicFault::ListedLine);
    }
    let footer = footer_of(TIC, tic, n);
    if !footer_formed(footer) {
        return Err(TicFault::Footer);
    }
    let sums = sums_of(footer);
    if !sums_fit(head, sums, listed_sum(tic, n)) {
        return Err(TicFault::Footer);
    }
    Ok(TicValues {
        head,
        listed: n,
        sums,
    })
}
