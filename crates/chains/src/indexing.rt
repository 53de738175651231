ghost use Rattle.std.specs.Prelude.{◌≡◌, ◌+◌, replicate};
ghost use Rattle.chains.specs.Index.{Ruled, AreRuled, AreIndexed, Entered};

use crate::hash::hash_line;
use lines::{Columns, Layout, line_of};

// The first `count` lines of a file, and the spans by which they are compared.
#[derive(Clone, Copy)]
pub struct Rows<'a> {
    pub layout: Layout,
    pub file: &'a [u8],
    pub spans: &'a [Columns],
    pub count: usize,
}

// Lines chained by their hash, in fixed memory. A line is named by its number counted from 1; 0 is none, so that an index of zeros is that of no lines.
#[derive(Clone, Copy)]
pub struct Index {
    // For each hash the last line that has it.
    pub heads: [u16; 4096],
    // For each line the nearest one before it with its hash.
    pub links: [u16; 9999],
}

impl Index {
    // The index of no lines.
    pub fn new() -> Index
        ensures { (result.heads ≡ replicate 4096 0) × (result.links ≡ replicate 9999 0) }
    {
        Index {
            heads: [0; 4096],
            links: [0; 9999],
        }
    }
}

// Puts line k in front of its chain.
fn enter(rows: Rows, k: usize, index: &mut Index)
    requires { Ruled rows.layout rows.file.now rows.spans.now (k + 1) }
    ensures { Entered rows.entry.layout rows.entry.file.now rows.entry.spans.now k index.old index.new }
{
    let h = hash_line(line_of(rows.layout, rows.file, k), rows.spans);
    index.links[k] = index.heads[h];
    index.heads[h] = (k + 1) as u16;
}

// Chains the lines by the hash of their spans; what the index held before does not matter.
pub fn index_lines(rows: Rows, index: &mut Index)
    requires { AreRuled rows }
    ensures { AreIndexed rows.entry index.new }
{
    index.heads.fill(0);
    for k in 0..rows.count {
        enter(rows, k, index);
    }
}
