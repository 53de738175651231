ghost use Rattle.std.specs.Prelude.{◌≡◌};
ghost use Rattle.tif.specs.Acceptance.{acceptance_of};

use crate::body::body_amount;
use crate::columns::TIF;
use crate::footer::footer_amount;
use crate::header::{Header, counts_agree};
use crate::received::is_received;
use lines::{Count, Gross, footer_of, framed_lines, header_of};

// A file that is to be judged line by line: its lines and the exact sum of their amounts with VAT.
#[derive(Clone, Copy)]
pub struct Whole {
    pub lines: usize,
    pub total: Gross,
}

// Why a file is refused before its lines are judged.
#[derive(Clone, Copy, PartialEq, Eq)]
pub enum FileFault {
    AlreadyReceived,
    OutOfForm,
    CountsDiffer,
    TotalDiffers,
}

// The acceptance of a file under its name, by the names received before.
#[tactic(auto, using(crate::specs::AcceptanceLaws::framing), unfolding(crate::specs::Acceptance::acceptance_of, crate::specs::Header::header_of_file, crate::specs::Footer::footer_amount, crate::specs::Body::body_amount, crate::specs::Body::amount_if, lines::specs::FirstOf::first_of))]
pub fn acceptance_of(name: &[u8], names: &[u8], tif: &[u8]) -> Result<Whole, FileFault>
    ensures { result ≡ acceptance_of name.now names.now tif.now }
{
    if is_received(names, name) {
        return Err(FileFault::AlreadyReceived);
    }
    let n = framed_lines(TIF, tif).ok_or(FileFault::OutOfForm)?;
    let header = Header {
        bytes: header_of(TIF, tif),
    };
    let counts = header.read(name).ok_or(FileFault::OutOfForm)?;
    let sum = body_amount(tif, n).ok_or(FileFault::OutOfForm)?;
    let total = footer_amount(footer_of(TIF, tif, n)).ok_or(FileFault::OutOfForm)?;
    if !counts_agree(counts, Count(n as u64)) {
        return Err(FileFault::CountsDiffer);
    }
    if total != sum {
        return Err(FileFault::TotalDiffers);
    }
    Ok(Whole {
        lines: n,
        total: sum,
    })
}
