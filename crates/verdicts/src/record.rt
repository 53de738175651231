ghost use Rattle.std.specs.Prelude.{◌≡◌, length};
ghost use Rattle.passage.specs.Passage.{line_width};
ghost use Rattle.verdicts.specs.Record.{record_of};

use crate::verdict::Verdict;
use lines::{Gross, Net, field, value_of};
use passage::{GROSS_AMOUNT, NET_FEE};

// What is kept of a line: its number counted from 1, its amount with VAT, its verdict, and its fee without VAT.
#[derive(Clone, Copy)]
pub struct Record {
    pub number: usize,
    pub gross: Gross,
    pub verdict: Verdict,
    pub net: Net,
}

// The record of a line with its verdict.
pub fn record_of(line: &[u8], number: usize, verdict: Verdict) -> Record
    requires { length line.now ≡ line_width }
    ensures { result ≡ record_of line.now number verdict }
{
    let gross = Gross(value_of(field(line, GROSS_AMOUNT)));
    let net = Net(value_of(field(line, NET_FEE)));
    Record {
        number,
        gross,
        verdict,
        net,
    }
}
