ghost use Rattle.std.specs.Prelude.{◌≡◌, ◌<◌};
ghost use Rattle.chains.specs.Last.{last_place};
ghost use Rattle.chains.specs.Index.{AreRuled, IsAskable, AreLinked, AreIndexed, agrees_at, member_of, repeated_at, all_different};
ghost use Rattle.chains.specs.Chain.{Walk};

use crate::hash::hash_line;
use crate::indexing::{Index, Rows, index_lines};
use lines::{Columns, agree_across, line_of};

// What is looked for among the rows: a line, and the spans of it that are compared with theirs.
#[derive(Clone, Copy)]
pub struct Sought<'a> {
    pub line: &'a [u8],
    pub spans: &'a [Columns],
}

// The last line below `start` that agrees with the sought one, counted from 0. Only lines of the chain from `start` are looked at.
fn walk(rows: Rows, index: &Index, start: usize, sought: Sought) -> Option<usize>
    requires { Walk rows.layout rows.file.now rows.spans.now start index.now.links sought.spans.now sought.line.now }
    ensures { result ≡ last_place start (agrees_at rows.entry sought.entry) }
{
    let mut link = start;
    while let Some(j) = link.checked_sub(1) {
        let line = line_of(rows.layout, rows.file, j);
        if agree_across(rows.spans, line, sought.spans, sought.line) {
            return Some(j);
        }
        link = usize::from(index.links[j]);
    }
    None
}

// The last of the indexed rows that agrees with the sought line, counted from 0.
pub fn last_agreeing(rows: Rows, index: &Index, sought: Sought) -> Option<usize>
    requires ruled { AreRuled rows }
    requires indexed { AreIndexed rows index.now }
    requires asked { IsAskable rows sought }
    ensures { result ≡ last_place rows.entry.count (agrees_at rows.entry sought.entry) }
{
    let h = hash_line(sought.line, sought.spans);
    walk(rows, index, usize::from(index.heads[h]), sought)
}

// Whether one of the indexed rows agrees with the sought line.
#[tactic(auto, using(crate::specs::LastLaws::last_there), unfolding(crate::specs::Index::member_of))]
pub fn is_member(rows: Rows, index: &Index, sought: Sought) -> bool
    requires ruled { AreRuled rows }
    requires indexed { AreIndexed rows index.now }
    requires asked { IsAskable rows sought }
    ensures { result ≡ member_of rows.entry.layout rows.entry.file.now rows.entry.spans.now rows.entry.count sought.entry.spans.now sought.entry.line.now }
{
    last_agreeing(rows, index, sought).is_some()
}

// Whether an earlier row agrees with row k.
pub fn is_repeated(rows: Rows, index: &Index, k: usize) -> bool
    requires ruled { AreRuled rows }
    requires linked { AreLinked rows index.now }
    requires k_lt_n { k < rows.count }
    ensures { result ≡ repeated_at rows.entry.layout rows.entry.file.now rows.entry.spans.now k }
{
    let sought = Sought {
        line: line_of(rows.layout, rows.file, k),
        spans: rows.spans,
    };
    walk(rows, index, usize::from(index.links[k]), sought).is_some()
}

fn none_repeated(rows: Rows, index: &Index) -> bool
    requires ruled { AreRuled rows }
    requires linked { AreLinked rows index.now }
    ensures { result ≡ all_different rows.entry.layout rows.entry.file.now rows.entry.spans.now rows.entry.count }
{
    (0..rows.count).all(|k| !is_repeated(rows, index, k))
}

// Whether no two of the rows agree.
pub fn all_different(rows: Rows) -> bool
    requires { AreRuled rows }
    ensures { result ≡ all_different rows.entry.layout rows.entry.file.now rows.entry.spans.now rows.entry.count }
{
    let mut index = Index::new();
    index_lines(rows, &mut index);
    none_repeated(rows, &index)
}
