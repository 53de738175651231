ghost use Rattle.std.specs.Prelude.{length};
ghost use Rattle.judge.specs.Call.{call_with, Judged};

use crate::attempt::{lines_to_record, try_call};
use crate::records::fill;
use answers::{Answer, Inputs};
use verdicts::Record;

// Judges a TIF against the book and the open debits: the answer, and the TIC, the records and the marks as they are to be kept.
// Inlined, so that where its caller lends no station table nothing is kept for one on the stack.
#[inline(always)]
pub fn judge(inputs: Inputs, marks: &mut [u8], records: &mut [Record], out: &mut [u8]) -> Answer
    ensures { Judged (call_with inputs.entry marks.old (length records.old) out.old) records.old result marks.new records.new out.new }
{
    // An array, since a call has no heap.
    let mut words = [0u64; 9999];
    let answer = try_call(inputs, marks, records.len(), &mut words, out);
    let n = lines_to_record(answer);
    fill(records, inputs.tif, &words, n);
    answer
}
