ghost use Rattle.std.specs.Prelude.{◌≡◌, ◌≤◌, true, length};
ghost use Rattle.book.specs.Layout.{width, agreements, entry_layout};
ghost use Rattle.book.specs.Form.{book_sound};
ghost use Rattle.lines.specs.Found.{found_below};
ghost use Rattle.cover.specs.Cover.{pan_is, Named};
ghost use Rattle.cover.specs.Pans.{pan_span, PansIndexed};

use book::{ENTRIES, PAN, agreements_of};
use chains::{Index, Rows, Sought, index_lines, last_agreeing};
use lines::Columns;

// The PAN of an entry, and all of a PAN that is asked for.
const PAN_SPAN: [Columns; 1] = [PAN];

// The entries of a book, by their PANs.
fn entries(book: &[u8]) -> Rows<'_>
    requires { 2 ≤ length book.now }
    ensures { (result.layout ≡ entry_layout) × (result.file ≡ book.entry) × (result.spans.now ≡ pan_span) × (result.count ≡ agreements book.now) }
{
    Rows {
        layout: ENTRIES,
        file: book,
        spans: &PAN_SPAN,
        count: agreements_of(book),
    }
}

// Chains the agreements of a sound book by their PANs. What the index held before does not matter.
#[tactic(auto, using(crate::specs::PansLaws::sound_ruled, crate::specs::PansLaws::sound_enough))]
pub fn index_pans(book: &[u8], index: &mut Index)
    requires { book_sound width book.now ≡ true }
    ensures { PansIndexed book.now index.new }
{
    index_lines(entries(book), index);
}

// The agreement of a PAN: no two share one, so the last that has it is the first.
#[tactic(auto, using(crate::specs::PansLaws::sound_ruled, crate::specs::PansLaws::sound_enough, crate::specs::PansLaws::pan_asked, crate::specs::PansLaws::pan_found))]
pub fn agreement_with(book: &[u8], index: &Index, pan: &[u8]) -> Option<usize>
    requires { Named width book.now pan.now × PansIndexed book.now index.now }
    ensures { result ≡ found_below (agreements book.now) (pan_is book.now pan.now) }
{
    let sought = Sought {
        line: pan,
        spans: &PAN_SPAN,
    };
    last_agreeing(entries(book), index, sought)
}
