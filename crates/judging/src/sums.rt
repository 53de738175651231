ghost use Rattle.std.specs.Prelude.{◌≡◌, true, ◌+◌, ◌≤◌, length};
ghost use Rattle.lines.specs.Number.{all_digits};
ghost use Rattle.lines.specs.Rows.{line_place};
ghost use Rattle.passage.specs.Passage.{gross_amount};
ghost use Rattle.tif.specs.Body.{line_at, amount_at};
ghost use Rattle.tif.specs.Columns.{tif_layout};
ghost use Rattle.judging.specs.Sums.{tally_plus, sums_plus, sums_of, Roomy, Worded};

use lines::{Count, Gross, field, value_of};
use passage::GROSS_AMOUNT;
use tif::tif_line;

// How many lines, and the sum of their amounts with VAT.
#[derive(Clone, Copy)]
pub struct Tally {
    pub count: Count,
    pub amount: Gross,
}

// The lines of a file that were accepted, and those that were refused.
#[derive(Clone, Copy)]
pub struct Sums {
    pub accepted: Tally,
    pub refused: Tally,
}

impl Tally {
    const NONE: Tally = Tally {
        count: Count(0),
        amount: Gross(0),
    };

    // With one more line, of this amount.
    fn with_line(self, amount: Gross) -> Tally
        requires { Roomy self amount.0 }
        ensures { result ≡ tally_plus true self amount.0 }
    {
        Tally {
            count: Count(self.count.0 + 1),
            amount: self.amount + amount,
        }
    }
}

impl Sums {
    // With one more line, accepted where the number in its word is 0, else refused.
    fn with_line(self, word: u64, amount: Gross) -> Sums
        requires { Roomy self.accepted amount.0 × Roomy self.refused amount.0 }
        ensures { result ≡ sums_plus word self amount.0 }
    {
        if word % 256 == 0 {
            Sums {
                accepted: self.accepted.with_line(amount),
                ..self
            }
        } else {
            Sums {
                refused: self.refused.with_line(amount),
                ..self
            }
        }
    }
}

// The amount of line k.
fn amount_at(tif: &[u8], k: usize) -> Gross
    requires { (line_place tif_layout (k + 1) ≤ length tif.now) × (all_digits (gross_amount (line_at tif.now k)) ≡ true) }
    ensures { result.0 ≡ amount_at tif.now k }
{
    Gross(value_of(field(tif_line(tif, k), GROSS_AMOUNT)))
}

// What was accepted and what was refused of a file whose lines have these words.
pub fn sums_of(tif: &[u8], words: &[u64]) -> Sums
    requires { Worded tif.now words.now }
    ensures { result ≡ sums_of tif.now words.now }
{
    let mut sums = Sums {
        accepted: Tally::NONE,
        refused: Tally::NONE,
    };
    for (k, &word) in words.iter().enumerate() {
        sums = sums.with_line(word, amount_at(tif, k));
    }
    sums
}
