ghost use Rattle.std.specs.Prelude.{◌≡◌, ◌≤◌, length, ltb};
ghost use Rattle.judging.specs.Sums.{Worded};
ghost use Rattle.answers.specs.Told.{judged_answer, refused_file, summary_for, head_of, sums_of, too_small};

use crate::answer::{FileAnswer, Summary};
use judging::sums_of;
use lines::{Count, Gross};
use tic_text::{TicHead, TicSums};
use tif::{FileFault, Whole, side_of};

// 00 where no line is refused, 01 where one is.
#[tactic(auto, unfolding(crate::specs::Told::judged_answer))]
pub fn judged_answer(refused: usize) -> FileAnswer
    ensures { result ≡ judged_answer refused }
{
    if refused == 0 {
        return FileAnswer::Accepted;
    }
    FileAnswer::PartlyAccepted
}

// What is told of a file whose lines have these words.
pub fn summarize(tif: &[u8], words: &[u64], whole: Whole) -> Summary
    requires { Worded tif.now words.now }
    ensures { result ≡ summary_for (Ok whole) tif.now words.now }
{
    let sums = sums_of(tif, words);
    let refused = sums.refused.count.0 as usize;
    Summary {
        answer: judged_answer(refused),
        side: side_of(tif),
        lines: words.len(),
        accepted: sums.accepted.count.0 as usize,
        refused,
        total: whole.total,
        accepted_amount: sums.accepted.amount,
        refused_amount: sums.refused.amount,
        length: 196 + refused * 812 + 128,
    }
}

// What is told of a file that is refused as a whole.
pub fn summarize_refused(tif: &[u8], answer: FileAnswer) -> Summary
    ensures { result ≡ refused_file answer tif.now }
{
    Summary {
        answer,
        side: side_of(tif),
        lines: 0,
        accepted: 0,
        refused: 0,
        total: Gross(0),
        accepted_amount: Gross(0),
        refused_amount: Gross(0),
        length: 324,
    }
}

// The TIC's header by what is told.
pub fn head_of(s: Summary) -> TicHead
    ensures { result ≡ head_of s }
{
    TicHead {
        acceptance: u64::from(s.answer),
        side: s.side,
        accepted: Count(s.accepted as u64),
        rejected: Count(s.refused as u64),
    }
}

// The TIC's footer by what is told.
pub fn sums_told(s: Summary) -> TicSums
    ensures { result ≡ sums_of s }
{
    TicSums {
        accepted: s.accepted_amount,
        rejected: s.refused_amount,
    }
}

// E7: whether the output is shorter than the TIC, or there are fewer records than lines judged.
pub fn is_too_small(s: Summary, room: usize, size: usize) -> bool
    ensures { result ≡ too_small s room size }
{
    size < s.length || room < s.lines
}
