ghost use Rattle.std.specs.Prelude.{◌≡◌, true, ◌+◌, ◌≤◌, ◌<◌, length};
ghost use Rattle.lines.specs.Rows.{line_place};
ghost use Rattle.passage.specs.Passage.{line_width};
ghost use Rattle.tif.specs.Body.{line_at};
ghost use Rattle.tif.specs.Columns.{tif_layout};
ghost use Rattle.tst.specs.Stations.{StationsIndexed};
ghost use Rattle.book.specs.Form.{book_sound};
ghost use Rattle.book.specs.Layout.{width};
ghost use Rattle.judging.specs.Judging.{repeats_at, repeated_at, cover_on, debit_verdict};
ghost use Rattle.judging.specs.Steps.{judged_by, GivenTo, CreditJudged, PassedJudged, Judged};

use chains::Index;
use cover::{Detected, Place, cover_at};
use debits::take_debit;
use lines::{agree_on, field};
use passage::{DETECTED_NATION, DETECTED_PLATE, EXIT_MOMENT, PAN, REPEAT_SPANS};
use tif::{Side, tif_line};
use tst::is_known_station;
use verdicts::{Verdict, test_line};

// What the lines of a file are judged by.
#[derive(Clone, Copy)]
pub struct Judging<'a> {
    pub side: Side,
    pub sender: &'a [u8],
    pub book: &'a [u8],
    pub debits: &'a [u8],
    pub tif: &'a [u8],
    pub tst: &'a [u8],
}

// Whether line i agrees with line k on what two lines of one file must not share.
fn repeats(tif: &[u8], k: usize, i: usize) -> bool
    requires { (line_place tif_layout (k + 1) ≤ length tif.now) × (i < k) }
    ensures { result ≡ repeats_at tif.now k i }
{
    agree_on(&REPEAT_SPANS, tif_line(tif, i), tif_line(tif, k))
}

// L6: whether an earlier line of the file agrees with line k, whichever verdict it got.
fn is_repeated(tif: &[u8], k: usize) -> bool
    requires { line_place tif_layout (k + 1) ≤ length tif.now }
    ensures { result ≡ repeated_at tif.now k }
{
    (0..k).any(|i| repeats(tif, k, i))
}

// L7: what covers a line.
fn cover_on(book: &[u8], line: &[u8]) -> Option<Place>
    requires { (book_sound width book.now ≡ true) × (length line.now ≡ line_width) }
    ensures { result ≡ cover_on book.now line.now }
{
    let pan = field(line, PAN);
    let detected = Detected {
        moment: field(line, EXIT_MOMENT),
        plate: field(line, DETECTED_PLATE),
        nation: field(line, DETECTED_NATION),
    };
    cover_at(book, pan, detected)
}

// What the checks of the call and of the file have shown is asked by a clause of each step, since it speaks of the marks, which change from line to line.
impl Judging<'_> {
    // The verdict on a debit that passes L1 to L5 and L9.
    #[tactic(auto, using(crate::specs::StepLaws::line_whole))]
    fn judge_debit(&self, k: usize) -> Verdict
        requires { (book_sound width self.now.book.now ≡ true) × (line_place tif_layout (k + 1) ≤ length self.now.tif.now) }
        ensures { result ≡ debit_verdict (repeated_at self.now.tif.now k) (cover_on self.now.book.now (line_at self.now.tif.now k)) }
    {
        if is_repeated(self.tif, k) {
            return Verdict::RepeatedLine;
        }
        match cover_on(self.book, tif_line(self.tif, k)) {
            Some(place) => Verdict::Covered(place),
            None => Verdict::NotCovered,
        }
    }

    // The verdict on a credit that passes L1 to L5 and L9: L8. The debit that it takes is marked.
    #[tactic(auto, using(crate::specs::StepLaws::line_whole))]
    fn judge_credit(&self, marks: &mut [u8], k: usize) -> Verdict
        requires { GivenTo (judged_by self.now) marks.old (k + 1) }
        ensures { CreditJudged self.now.debits.now marks.old (line_at self.now.tif.now k) result marks.new }
    {
        match take_debit(self.debits, marks, tif_line(self.tif, k)) {
            Some(debit) => Verdict::Credits(debit),
            None => Verdict::NoDebit,
        }
    }

    // The verdict on line k once it has passed L1 to L5 and L9.
    fn judge_passed(&self, marks: &mut [u8], k: usize) -> Verdict
        requires { GivenTo (judged_by self.now) marks.old (k + 1) }
        ensures { PassedJudged self.now.side self.now.book.now self.now.debits.now marks.old self.now.tif.now k result marks.new }
    {
        match self.side {
            Side::Credit => self.judge_credit(marks, k),
            Side::Debit => self.judge_debit(k),
            Side::Neither => Verdict::WrongType,
        }
    }

    // The verdict on line k. A credit that fails one of L1 to L5 or L9 takes no debit.
    #[tactic(auto, using(crate::specs::StepLaws::line_whole))]
    pub fn judge_line(&self, marks: &mut [u8], stations: &Index, k: usize) -> Verdict
        requires { GivenTo (judged_by self.now) marks.old (k + 1) × StationsIndexed self.now.tst.now stations.now }
        ensures { Judged (judged_by self.now) marks.old k result marks.new }
    {
        let line = tif_line(self.tif, k);
        let known = is_known_station(self.tst, stations, line);
        match test_line(line, self.side, self.sender, known) {
            Err(v) => v,
            Ok(()) => self.judge_passed(marks, k),
        }
    }
}
