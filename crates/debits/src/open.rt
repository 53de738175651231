ghost use Rattle.std.specs.Prelude.{◌≡◌, ◌+◌, ◌≤◌, ◌<◌, length};
ghost use Rattle.lines.specs.Rows.{line_place};
ghost use Rattle.passage.specs.Passage.{line_width};
ghost use Rattle.chains.specs.Hash.{hashes};
ghost use Rattle.debits.specs.Form.{debit_layout};
ghost use Rattle.debits.specs.Taking.{Lent, Took};
ghost use Rattle.debits.specs.Open.{debit_hash, OpenFrom, Opened, Listed, LeadsTo};

use crate::form::DEBITS;
use crate::taking::free_for;
use chains::{HASHES, clear_ahead, enter_ahead, hash_line, next_ahead};
use lines::line_of;
use passage::CREDIT_SPANS;

// The hash of what a credit must share with debit j.
fn debit_hash(debits: &[u8], j: usize) -> usize
    requires { line_place debit_layout j + line_width ≤ length debits.now }
    ensures { (result ≡ debit_hash debits.now j) × (result < hashes) }
{
    hash_line(line_of(DEBITS, debits, j), &CREDIT_SPANS)
}

// Puts debit k in front of its chain unless it is marked.
fn enter_open(debits: &[u8], marks: &[u8], k: usize, links: &mut [u16])
    requires listed { Listed debits.now marks.now × (k < length marks.now) }
    requires open_from { OpenFrom debits.now marks.now (k + 1) links.old }
    ensures { OpenFrom debits.now marks.now k links.new }
{
    if marks[k] == 0 {
        enter_ahead(links, debit_hash(debits, k), k, k);
    }
}

// Chains the open debits by the hash of what a credit must share with them; what the slice held before does not matter.
// A link names the next open debit of its hash, counted from 0, and the number of debits where there is none.
pub fn index_open(debits: &[u8], marks: &[u8], links: &mut [u16])
    requires { Listed debits.now marks.now × (hashes + length marks.now ≤ length links.old) }
    ensures { Opened debits.now marks.now links.new }
{
    clear_ahead(links, marks.len());
    for k in (0..marks.len()).rev() {
        enter_open(debits, marks, k, links);
    }
}

// The link that leads to the first open debit that agrees with the credit; past the last where there is none. A place and no Option, since there is a link in either case.
fn link_to(debits: &[u8], marks: &[u8], credit: &[u8], links: &[u16]) -> usize
    requires { Lent debits.now marks.now credit.now × Opened debits.now marks.now links.now }
    ensures { LeadsTo debits.now marks.now credit.now links.now result }
{
    let mut at = hash_line(credit, &CREDIT_SPANS);
    while let Some(j) = next_ahead(links, at, marks.len()) {
        if free_for(debits, marks, credit, j) {
            return at;
        }
        at = HASHES + j;
    }
    at
}

// The credit takes the first unmarked debit that agrees with it: that debit's mark becomes 1, and it goes out of the index. The answer is its number, counted from 1.
pub fn take_open(debits: &[u8], marks: &mut [u8], credit: &[u8], links: &mut [u16]) -> Option<usize>
    requires { Lent debits.now marks.old credit.now × Opened debits.now marks.old links.old }
    ensures { Took debits.now marks.old credit.now result marks.new × Opened debits.now marks.new links.new }
{
    let at = link_to(debits, marks, credit, links);
    let j = next_ahead(links, at, marks.len())?;
    links[at] = links[HASHES + j];
    marks[j] = 1;
    Some(j + 1)
}
