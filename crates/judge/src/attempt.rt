ghost use Rattle.std.specs.Prelude.{◌≡◌, ◌≤◌, Err, length, take};
ghost use Rattle.answers.specs.Told.{file_answer, refused_file};
ghost use Rattle.judge.specs.Call.{call_with, lines_to_record};
ghost use Rattle.judge.specs.Core.{LinesReady, Filled, Committable, Committed, SoundReady, FileReady, Widths, FileRefused, CallTried};

use answers::{
    Answer, CallFault, FileAnswer, Inputs, Summary, check_call, head_of, is_too_small, put_tic,
    summarize, summarize_refused, sums_told,
};
use judging::Judging;
use lines::{field, put_bytes};
use tif::{FileFault, NAME_SENDER, Whole, acceptance_of, side_of};

// Judges the first n lines into the front of words, on marks that are a copy.
fn judge_parts(inputs: Inputs, m: usize, mine: &mut [u8], n: usize, words: &mut [u64])
    requires { LinesReady inputs.name.now inputs.book.now inputs.debits.now (take m mine.old) inputs.tif.now inputs.tst.now n words.old × (m ≤ length mine.old) }
    ensures { Filled inputs.entry.name.now inputs.entry.book.now inputs.entry.debits.now (take m mine.old) inputs.entry.tif.now inputs.entry.tst.now n words.old mine.new words.new }
{
    let judging = Judging {
        side: side_of(inputs.tif),
        sender: field(inputs.name, NAME_SENDER),
        book: inputs.book,
        debits: inputs.debits,
        tif: inputs.tif,
        tst: inputs.tst,
    };
    judging.judge_lines(&mut mine[0..m], &mut words[0..n]);
}

// Copies the marks, and judges on the copy. Nothing of the caller's is written but words.
fn judge_all(inputs: Inputs, marks: &[u8], mine: &mut [u8; 9999], n: usize, words: &mut [u64])
    requires { LinesReady inputs.name.now inputs.book.now inputs.debits.now marks.now inputs.tif.now inputs.tst.now n words.old }
    ensures { Filled inputs.entry.name.now inputs.entry.book.now inputs.entry.debits.now marks.now inputs.entry.tif.now inputs.entry.tst.now n words.old mine.new words.new }
{
    let m = marks.len();
    put_bytes(mine, 0, marks);
    judge_parts(inputs, m, mine, n, words);
}

// Writes the marks and the TIC of a judged file, once nothing can be refused any more.
fn commit(inputs: Inputs, words: &[u64], s: Summary, mine: &[u8], marks: &mut [u8], out: &mut [u8])
    requires { Committable inputs.name.now inputs.received.now inputs.card.now inputs.tif.now words.now s mine.now marks.old out.old }
    ensures { Committed inputs.entry.name.now inputs.entry.received.now inputs.entry.card.now inputs.entry.tif.now words.now s mine.now out.old marks.new out.new }
{
    marks.copy_from_slice(mine);
    put_tic(inputs, words, head_of(s), sums_told(s), out);
}

// The answer for a file that is judged line by line.
fn judge_file(
    inputs: Inputs,
    whole: Whole,
    marks: &mut [u8],
    room: usize,
    words: &mut [u64],
    out: &mut [u8],
) -> Answer
    requires { FileReady (call_with inputs marks.old room out.old) whole words.old }
    ensures { CallTried (call_with inputs.entry marks.old room out.old) words.old result marks.new words.new out.new }
{
    let n = whole.lines;
    let m = marks.len();
    // An array of the most that there are, since a call has no heap.
    let mut mine = [0u8; 9999];
    judge_all(inputs, marks, &mut mine, n, words);
    let s = summarize(inputs.tif, &words[0..n], whole);
    if is_too_small(s, room, out.len()) {
        return Err(CallFault::Room);
    }
    commit(inputs, &words[0..n], s, &mine[0..m], marks, out);
    Ok(s)
}

// The answer for a file that is refused as a whole: a TIC with no line, and nothing else written.
fn refuse_file(inputs: Inputs, fault: FileFault, room: usize, out: &mut [u8]) -> Answer
    requires { Widths inputs.name.now inputs.received.now }
    ensures { FileRefused inputs.entry.name.now inputs.entry.received.now inputs.entry.card.now inputs.entry.tif.now (refused_file (file_answer (Err fault) 0) inputs.entry.tif.now) room out.old result out.new }
{
    let s = summarize_refused(inputs.tif, FileAnswer::from(fault));
    if is_too_small(s, room, out.len()) {
        return Err(CallFault::Room);
    }
    put_tic(inputs, &[], head_of(s), sums_told(s), out);
    Ok(s)
}

// The answer of a call that E1 to E6 and E8 let pass.
fn judge_sound(
    inputs: Inputs,
    marks: &mut [u8],
    room: usize,
    words: &mut [u64],
    out: &mut [u8],
) -> Answer
    requires { SoundReady (call_with inputs marks.old room out.old) words.old }
    ensures { CallTried (call_with inputs.entry marks.old room out.old) words.old result marks.new words.new out.new }
{
    match acceptance_of(inputs.name, inputs.names, inputs.tif) {
        Ok(whole) => judge_file(inputs, whole, marks, room, words, out),
        Err(fault) => refuse_file(inputs, fault, room, out),
    }
}

// The covered core of the call: it works on the words that are lent, and leaves those of the lines judged in front, also where there is no room.
pub fn try_call(
    inputs: Inputs,
    marks: &mut [u8],
    room: usize,
    words: &mut [u64],
    out: &mut [u8],
) -> Answer
    requires { 9999 ≤ length words.old }
    ensures { CallTried (call_with inputs.entry marks.old room out.old) words.old result marks.new words.new out.new }
{
    check_call(inputs, marks)?;
    judge_sound(inputs, marks, room, words, out)
}

// How many records are to be filled.
pub fn lines_to_record(answer: Answer) -> usize
    ensures { result ≡ lines_to_record answer }
{
    match answer {
        Ok(s) => s.lines,
        Err(_) => 0,
    }
}
