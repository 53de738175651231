ghost use Rattle.std.specs.Prelude.{◌≡◌, ◌+◌, ◌≤◌, length};
ghost use Rattle.lines.specs.Rows.{line_place, file_length, header_of, line_of, footer_of, line_count, one_feed, line_feed_at, feeds_stand, framed_lines, Laid};
ghost use Rattle.lines.specs.Below.{all_below};

use crate::class::{Class, place_of};

// A file of fixed-width rows: how wide its header, each line and its footer are, line feeds included.
#[derive(Clone, Copy)]
pub struct Layout {
    pub header: usize,
    pub line: usize,
    pub footer: usize,
}

#[tactic(auto, unfolding(crate::specs::Rows::header_of))]
pub fn header_of(layout: Layout, file: &[u8]) -> &[u8]
    requires { layout.header ≤ length file.now }
    ensures { result.now ≡ header_of layout file.now }
{
    &file[..layout.header]
}

// Line k, counted from 0.
pub fn line_of(layout: Layout, file: &[u8], k: usize) -> &[u8]
    requires { line_place layout k + layout.line ≤ length file.now }
    ensures { result.now ≡ line_of layout file.now k }
{
    let at = layout.header + k * layout.line;
    &file[at..at + layout.line]
}

// The footer of a file of n lines. How long the file is at least is asked by a clause, here and below, since a file may be longer.
pub fn footer_of(layout: Layout, file: &[u8], n: usize) -> &[u8]
    requires { file_length layout n ≤ length file.now }
    ensures { result.now ≡ footer_of layout file.now n }
{
    let at = layout.header + n * layout.line;
    &file[at..at + layout.footer]
}

// How many lines a file of `size` bytes has, at most 9,999.
#[tactic(auto, unfolding(crate::specs::Rows::line_count, crate::specs::Rows::count_fits))]
pub fn line_count(layout: Layout, size: usize) -> Option<usize>
    requires { Laid layout }
    ensures { result ≡ line_count layout size }
{
    let ends = layout.header + layout.footer;
    let n = size.checked_sub(ends)? / layout.line;
    (size == ends + n * layout.line && n <= 9999).then_some(n)
}

// Whether the row's only line feed is its last byte.
#[tactic(auto, using(crate::specs::ClassLaws::place_le), unfolding(crate::specs::Rows::one_feed))]
fn one_feed(row: &[u8]) -> bool
    ensures { result ≡ one_feed row.now }
{
    place_of(Class::Only(b'\n'), row) + 1 == row.len()
}

// Whether each line's only line feed is its last byte.
fn lines_end(layout: Layout, file: &[u8], n: usize) -> bool
    requires { file_length layout n ≤ length file.now }
    ensures { result ≡ all_below n (line_feed_at layout file.now) }
{
    (0..n).all(|k| one_feed(line_of(layout, file, k)))
}

// Whether a line feed stands at the end of each row and nowhere else.
#[tactic(auto, unfolding(crate::specs::Rows::feeds_stand))]
fn feeds_stand(layout: Layout, file: &[u8], n: usize) -> bool
    requires { file_length layout n ≤ length file.now }
    ensures { result ≡ feeds_stand layout file.now n }
{
    one_feed(header_of(layout, file))
        && lines_end(layout, file, n)
        && one_feed(footer_of(layout, file, n))
}

// How many lines a file has whose length and line feeds are right.
#[tactic(auto, unfolding(crate::specs::Rows::line_count, crate::specs::Rows::framed_lines))]
pub fn framed_lines(layout: Layout, file: &[u8]) -> Option<usize>
    requires { Laid layout }
    ensures { result ≡ framed_lines layout file.now }
{
    let n = line_count(layout, file.len())?;
    feeds_stand(layout, file, n).then_some(n)
}
