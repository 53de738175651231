// Open debits and their marks: whether they are of the right form (E6), and the debit that a credit takes (L8).
#![tactic(auto)]

mod form;
mod open;
mod taking;

pub use form::{DEBITS, debits_sound};
pub use open::{index_open, take_open};
pub use taking::take_debit;
