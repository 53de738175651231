ghost use Rattle.std.specs.Prelude.{◌≡◌, true, ◌≤◌, length};
ghost use Rattle.lines.specs.Rows.{file_length};
ghost use Rattle.passage.specs.Passage.{line_width};
ghost use Rattle.tst.specs.Columns.{tst_layout, station_spans};
ghost use Rattle.tst.specs.Form.{stations_of, table_sound};
ghost use Rattle.tst.specs.Stations.{is_known_station, StationsIndexed};

use crate::columns::{EXIT_SPANS, STATION_SPANS, TST};
use crate::form::is_lent;
use chains::{Index, Rows, Sought, index_lines, is_member};

// How many lines a table has, by its length alone.
fn station_count(tst: &[u8]) -> usize
    requires { file_length tst_layout 0 ≤ length tst.now }
    ensures { result ≡ stations_of tst.now }
{
    (tst.len() - (TST.header + TST.footer)) / TST.line
}

// The lines of a table, by the triples that no two of them share. Of another file than the entries of a book in `cover`, so no function for both.
fn stations(tst: &[u8]) -> Rows<'_>
    requires { file_length tst_layout 0 ≤ length tst.now }
    ensures { (result.layout ≡ tst_layout) × (result.file ≡ tst.entry) × (result.spans.now ≡ station_spans) × (result.count ≡ stations_of tst.now) }
{
    Rows {
        layout: TST,
        file: tst,
        spans: &STATION_SPANS,
        count: station_count(tst),
    }
}

// Chains the lines of a lent table by their triples. Where none is lent there is nothing to index.
#[tactic(auto, using(crate::specs::FormLaws::sound_long, crate::specs::FormLaws::sound_ruled))]
pub fn index_stations(tst: &[u8], index: &mut Index)
    requires { table_sound tst.now ≡ true }
    ensures { StationsIndexed tst.now index.new }
{
    if is_lent(tst) {
        index_lines(stations(tst), index);
    }
}

// Whether no table is lent, or one of its lines has the exit actor, station and lane of the TIF's line (L9).
#[tactic(auto, using(crate::specs::FormLaws::sound_long, crate::specs::FormLaws::sound_ruled, crate::specs::FormLaws::exit_asked), unfolding(crate::specs::Stations::is_known_station))]
pub fn is_known_station(tst: &[u8], index: &Index, line: &[u8]) -> bool
    requires { StationsIndexed tst.now index.now × (length line.now ≡ line_width) }
    ensures { result ≡ is_known_station tst.now line.now }
{
    let sought = Sought {
        line,
        spans: &EXIT_SPANS,
    };
    !is_lent(tst) || is_member(stations(tst), index, sought)
}
