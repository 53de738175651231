ghost use Rattle.std.specs.Prelude.{◌≡◌, ◌<◌, length};
ghost use Rattle.lines.specs.Found.{found_below};
ghost use Rattle.debits.specs.Taking.{Lent, free_for, Took};

use crate::form::DEBITS;
use lines::{agree_on, line_of};
use passage::CREDIT_SPANS;

// Whether debit j is unmarked and agrees with the credit. The mark comes first: it is one byte, the columns are seventy.
// What the lengths of debits and marks are is asked by a clause, here and below, since marks are lent for writing and debits for reading.
#[tactic(auto, unfolding(crate::specs::Taking::free_for, crate::specs::Taking::unmarked, crate::specs::Taking::agrees))]
pub fn free_for(debits: &[u8], marks: &[u8], credit: &[u8], j: usize) -> bool
    requires { Lent debits.now marks.now credit.now × (j < length marks.now) }
    ensures { result ≡ free_for debits.now marks.now credit.now j }
{
    marks[j] == 0 && agree_on(&CREDIT_SPANS, line_of(DEBITS, debits, j), credit)
}

// The place of the first unmarked debit that agrees with the credit, counted from 0.
fn first_free(debits: &[u8], marks: &[u8], credit: &[u8]) -> Option<usize>
    requires { Lent debits.now marks.now credit.now }
    ensures { result ≡ found_below (length marks.now) (free_for debits.now marks.now credit.now) }
{
    (0..marks.len()).find(|j| free_for(debits, marks, credit, *j))
}

// The credit takes the first unmarked debit that agrees with it, and that debit's mark becomes 1. The answer is that debit's number, counted from 1.
#[tactic(auto, using(crate::specs::TakingLaws::free_within, crate::specs::TakingLaws::free_taken, crate::specs::TakingLaws::free_none))]
pub fn take_debit(debits: &[u8], marks: &mut [u8], credit: &[u8]) -> Option<usize>
    requires { Lent debits.now marks.old credit.now }
    ensures { Took debits.now marks.old credit.now result marks.new }
{
    let j = first_free(debits, marks, credit)?;
    marks[j] = 1;
    Some(j + 1)
}
