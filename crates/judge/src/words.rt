ghost use Rattle.judge.specs.Call.{call_with, WordsJudged};

use crate::attempt::{lines_to_record, try_call};
use answers::{Answer, Inputs};

// The call with a word a line in place of a record: what `judge` does, and the words of the lines judged in front of those lent.
pub fn judge_words(
    inputs: Inputs,
    marks: &mut [u8],
    room: usize,
    words: &mut [u64; 9999],
    out: &mut [u8],
) -> Answer
    ensures { WordsJudged (call_with inputs.entry marks.old room out.old) words.old result marks.new words.new out.new }
{
    // An array, since a call has no heap.
    let mut tried = [0u64; 9999];
    let answer = try_call(inputs, marks, room, &mut tried, out);
    let n = lines_to_record(answer);
    words[0..n].copy_from_slice(&tried[0..n]);
    answer
}
