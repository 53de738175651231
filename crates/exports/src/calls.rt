ghost use Rattle.std.specs.Prelude.{◌≡◌, []};
ghost use Rattle.judge.specs.Call.{call_of};
ghost use Rattle.exports.specs.Calls.{summary_told, AnswerTold, CallJudged};

use crate::numbers::{call_fault_number, side_number};
use answers::{Answer, Inputs, Summary};
use judge::judge_words;

// Writes the nine values of a call that is answered.
fn put_summary(summary: &mut [u64; 9], s: Summary)
    ensures { summary.new ≡ summary_told s }
{
    *summary = [
        u64::from(s.answer),
        side_number(s.side),
        s.lines as u64,
        s.accepted as u64,
        s.refused as u64,
        s.total.0,
        s.accepted_amount.0,
        s.refused_amount.0,
        s.length as u64,
    ];
}

// Tells an answer: 0 and its nine values, or the call's number and no value.
fn tell_answer(summary: &mut [u64; 9], answer: Answer) -> u32
    ensures { AnswerTold answer summary.old result summary.new }
{
    match answer {
        Ok(s) => {
            put_summary(summary, s);
            0
        }
        Err(fault) => call_fault_number(fault),
    }
}

// Judges a TIF as `judge` does, with the words of the lines judged in place of their records: 0 and the nine values of the answer, or 1 to 8 for E1 to E8, with nothing written. An empty station table means that none is lent.
// The parameters are flat for the C interface, here and below.
#[unsafe(no_mangle)]
pub extern "C" fn quindaf_judge_with(
    name: &[u8],
    received: &[u8],
    card: &[u8],
    names: &[u8],
    book: &[u8],
    debits: &[u8],
    marks: &mut [u8],
    tif: &[u8],
    tst: &[u8],
    room: usize,
    words: &mut [u64; 9999],
    out: &mut [u8],
    summary: &mut [u64; 9],
) -> u32
    ensures { CallJudged (call_of name.now received.now card.now names.now book.now debits.now marks.old tif.now tst.now room out.old) words.old summary.old result marks.new words.new out.new summary.new }
{
    let inputs = Inputs {
        name,
        received,
        card,
        names,
        book,
        debits,
        tif,
        tst,
    };
    let answer = judge_words(inputs, marks, room, words, out);
    tell_answer(summary, answer)
}

// The same with no station table lent, and so never 8.
#[unsafe(no_mangle)]
pub extern "C" fn quindaf_judge(
    name: &[u8],
    received: &[u8],
    card: &[u8],
    names: &[u8],
    book: &[u8],
    debits: &[u8],
    marks: &mut [u8],
    tif: &[u8],
    room: usize,
    words: &mut [u64; 9999],
    out: &mut [u8],
    summary: &mut [u64; 9],
) -> u32
    ensures { CallJudged (call_of name.now received.now card.now names.now book.now debits.now marks.old tif.now [] room out.old) words.old summary.old result marks.new words.new out.new summary.new }
{
    quindaf_judge_with(
        name,
        received,
        card,
        names,
        book,
        debits,
        marks,
        tif,
        &[],
        room,
        words,
        out,
        summary,
    )
}
