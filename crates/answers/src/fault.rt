ghost use Rattle.std.specs.Prelude.{◌≡◌};
ghost use Rattle.answers.specs.Fault.{check_call, check_lent};

use crate::answer::CallFault;
use crate::card::is_card;
use crate::inputs::Inputs;
use book::check_book;
use debits::debits_sound;
use moment::is_moment;
use tif::{is_name, names_whole};
use tst::{is_lent, table_sound};

// E5, E6 and E8.
#[tactic(auto, using(lines::specs::Tests::tests), unfolding(crate::specs::Fault::check_lent, lines::specs::FirstOf::first_of))]
fn check_lent(inputs: Inputs, marks: &[u8]) -> Result<(), CallFault>
    ensures { result ≡ check_lent inputs.entry.book.now inputs.entry.debits.now marks.now inputs.entry.tst.now }
{
    if !check_book(inputs.book) {
        return Err(CallFault::Book);
    }
    if !debits_sound(inputs.debits, marks) {
        return Err(CallFault::OpenDebits);
    }
    if !table_sound(inputs.tst) {
        return Err(CallFault::StationTable);
    }
    Ok(())
}

// E1 to E6 and then E8, in order.
#[tactic(auto, using(lines::specs::Tests::tests), unfolding(crate::specs::Fault::check_call, lines::specs::FirstOf::first_of))]
pub fn check_call(inputs: Inputs, marks: &[u8]) -> Result<(), CallFault>
    ensures { result ≡ check_call inputs.entry.name.now inputs.entry.received.now inputs.entry.card.now inputs.entry.names.now inputs.entry.book.now inputs.entry.debits.now marks.now inputs.entry.tst.now }
{
    if !is_name(inputs.name) {
        return Err(CallFault::FileName);
    }
    if !is_moment(inputs.received) {
        return Err(CallFault::ReceptionMoment);
    }
    if !is_card(inputs.card, is_lent(inputs.tst)) {
        return Err(CallFault::CodeCard);
    }
    if !names_whole(inputs.names) {
        return Err(CallFault::ReceivedNames);
    }
    check_lent(inputs, marks)
}
