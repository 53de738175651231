ghost use Rattle.std.specs.Prelude.{◌≡◌, ◌≤◌, ◌<◌, ◌*◌, ◌^◌, length};
ghost use Rattle.answers.specs.Card.{verdicts_in_use, is_card, code_of, Coded};

use lines::{Class, all_of};

// How long a card is: two bytes for each of L1 to L8, and for L9 where a station table is lent. That one is lent is a value of the rule, and no switch.
fn card_length(lent: bool) -> usize
    ensures { result ≡ verdicts_in_use lent * 2 }
{
    if lent { 18 } else { 16 }
}

// Whether the card has a code of two digits or capitals for each verdict in use.
#[tactic(auto, using(lines::specs::Tests::tests), unfolding(crate::specs::Card::is_card))]
pub fn is_card(card: &[u8], lent: bool) -> bool
    ensures { result ≡ is_card lent card.now }
{
    card.len() == card_length(lent) && all_of(Class::DigitOrCapital, card)
}

// Where the code of verdict number k, counted from 1, ends on the card.
fn code_end(k: usize) -> usize
    requires { k * 2 < 2 ^ 64 }
    ensures { result ≡ k * 2 }
{
    k * 2
}

// The code of verdict number k, counted from 1.
pub fn code_of(card: &[u8], k: usize) -> &[u8]
    requires { Coded card.now k }
    ensures { result.now ≡ code_of card.now k }
{
    let end = code_end(k);
    &card[end - 2..end]
}
