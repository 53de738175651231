ghost use Rattle.std.specs.Prelude.{◌≡◌, true, ◌+◌, ◌<◌, length};
ghost use Rattle.tst.specs.Form.{table_sound};
ghost use Rattle.tst.specs.Stations.{StationsIndexed};
ghost use Rattle.judging.specs.Steps.{judged_by, GivenTo, Stepped, AllJudged};

use crate::line::Judging;
use chains::Index;
use tst::index_stations;
use verdicts::word_of;

impl Judging<'_> {
    // Judges line k into its word.
    fn judge_next(&self, marks: &mut [u8], stations: &Index, words: &mut [u64], k: usize)
        requires { GivenTo (judged_by self.now) marks.old (k + 1) × (k < length words.old) × StationsIndexed self.now.tst.now stations.now }
        ensures { Stepped (judged_by self.now) k marks.old words.old marks.new words.new }
    {
        let v = self.judge_line(marks, stations, k);
        words[k] = word_of(v);
    }

    // Judges the lines one after the other, with the stations entered.
    fn judge_each(&self, marks: &mut [u8], stations: &Index, words: &mut [u64])
        requires { GivenTo (judged_by self.now) marks.old (length words.old) × StationsIndexed self.now.tst.now stations.now }
        ensures { AllJudged (judged_by self.now) (length words.old) marks.old marks.new words.new }
    {
        for k in 0..words.len() {
            self.judge_next(marks, stations, words, k);
        }
    }

    // Judges as many lines of a file as there are words, each into its word; marks is what the credits of the file take from. What is required the checks of the call and of the file have shown.
    pub fn judge_lines(&self, marks: &mut [u8], words: &mut [u64])
        requires { GivenTo (judged_by self.now) marks.old (length words.old) × (table_sound self.now.tst.now ≡ true) }
        ensures { AllJudged (judged_by self.now) (length words.old) marks.old marks.new words.new }
    {
        let mut stations = Index::new();
        index_stations(self.tst, &mut stations);
        self.judge_each(marks, &stations, words);
    }
}
