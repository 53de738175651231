ghost use Rattle.std.specs.Prelude.{◌≡◌, ◌+◌, ◌<◌, ◌≤◌, ◌^◌, length};
ghost use Rattle.lines.specs.Rows.{line_place, line_of};
ghost use Rattle.passage.specs.Passage.{line_width};
ghost use Rattle.tif.specs.Columns.{tif_layout};
ghost use Rattle.tif.specs.Reader.{line_from};

use crate::columns::TIF;
use passage::WIDTH;

// A reader keeps the file and its place in it: where a line begins. The rules name this form, thin over a function with plain parameters.
#[derive(Clone, Copy)]
pub struct Reader<'a> {
    pub file: &'a [u8],
    pub at: usize,
}

// The line that begins at a place of the file. The work of the reader, with plain parameters.
fn line_at(file: &[u8], at: usize) -> &[u8]
    requires { at + line_width ≤ length file.now }
    ensures { result.now ≡ line_from at file.now }
{
    &file[at..at + WIDTH]
}

impl<'a> Reader<'a> {
    // A reader of the file at a place.
    pub fn new(file: &'a [u8], at: usize) -> Self
        ensures { (result.file ≡ file.entry) × (result.at ≡ at) }
    {
        Reader { file, at }
    }

    // The line at the reader's place, as that part of the file.
    pub fn shown(self) -> &'a [u8]
        requires { self.at + line_width ≤ length self.file.now }
        ensures { result.now ≡ line_from self.entry.at self.entry.file.now }
    {
        line_at(self.file, self.at)
    }

    // The reader at the next line.
    pub fn moved_on(self) -> Self
        requires { self.at + line_width < 2 ^ 64 }
        ensures { (result.file ≡ self.entry.file) × (result.at ≡ self.entry.at + line_width) }
    {
        Reader {
            at: self.at + WIDTH,
            ..self
        }
    }
}

// Line k of a TIF, counted from 0. Every loop over lines takes them here.
#[tactic(auto, unfolding(lines::specs::Rows::line_of))]
pub fn tif_line(tif: &[u8], k: usize) -> &[u8]
    requires { line_place tif_layout k + line_width ≤ length tif.now }
    ensures { result.now ≡ line_of tif_layout tif.now k }
{
    Reader::new(tif, TIF.header + k * TIF.line).shown()
}
