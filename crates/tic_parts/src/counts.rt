ghost use Rattle.std.specs.Prelude.{◌≡◌, ◌≤◌};
ghost use Rattle.lines.specs.Rows.{most_lines};
ghost use Rattle.tic_parts.specs.Reading.{acceptance_fits, head_agrees, counts_agree, head_of};
ghost use Rattle.tic_parts.specs.ReadingLaws.{Counting};

use lines::{field, number_of};
use tic_text::{ACCEPTED_AGAIN, REJECTED_AGAIN, TicHead};
use tif::is_sided;

// Whether the acceptance is one, and has the counts and the side that it asks for.
#[tactic(auto, unfolding(crate::specs::Reading::acceptance_fits, lines::specs::FirstOf::first_of))]
fn acceptance_fits(head: TicHead) -> bool
    ensures { result ≡ acceptance_fits head }
{
    match head.acceptance {
        0 => is_sided(head.side) && head.rejected.0 == 0,
        1 => is_sided(head.side) && head.rejected.0 > 0,
        2..=5 => head.accepted.0 == 0 && head.rejected.0 == 0,
        _ => false,
    }
}

// Whether the counts of the header agree with the lines listed and with the acceptance.
#[tactic(auto, unfolding(crate::specs::Reading::head_agrees, tif::specs::Every::every))]
fn head_agrees(head: TicHead, n: usize) -> bool
    requires { n ≤ most_lines }
    ensures { result ≡ head_agrees head n }
{
    head.rejected.0 == n as u64
        && head.accepted.0 <= 9999
        && head.accepted.0 + head.rejected.0 <= 9999
        && acceptance_fits(head)
}

// Whether the counts agree with each other too (T3).
#[tactic(auto, unfolding(crate::specs::Reading::counts_agree, tif::specs::Every::every))]
pub fn counts_agree(h: &[u8], head: TicHead, n: usize) -> bool
    requires { Counting h.now head n }
    ensures { result ≡ counts_agree h.now n }
{
    number_of(field(h, ACCEPTED_AGAIN)) == head.accepted.0
        && number_of(field(h, REJECTED_AGAIN)) == head.rejected.0
        && head_agrees(head, n)
}
