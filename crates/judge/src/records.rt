ghost use Rattle.std.specs.Prelude.{◌≡◌, ℕ, ◌<◌, ◌≤◌, ◌++◌, length, drop};
ghost use Rattle.judge.specs.Records.{LineKnown, record_at, records_to};

use tif::tif_line;
use verdicts::{Record, Verdict, record_of};

// The record of line k, counted from 0, by its word.
fn record_at(tif: &[u8], words: &[u64], k: usize) -> Record
    requires { LineKnown tif.now words.now k }
    ensures { result ≡ record_at tif.now words.now k }
{
    record_of(tif_line(tif, k), k + 1, Verdict::from(words[k]))
}

// Fills the records of the first n lines, one a line.
pub fn fill(records: &mut [Record], tif: &[u8], words: &[u64], n: usize)
    requires { (n ≤ length records.old) × ((k : ℕ) → k < n → LineKnown tif.now words.now k) }
    ensures { records.new ≡ records_to tif.now words.now n ++ drop n records.old }
{
    for k in 0..n {
        records[k] = record_at(tif, words, k);
    }
}
