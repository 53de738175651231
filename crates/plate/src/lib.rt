// Number plates: the bytes that they are written in, and a plate with its nation.
#![tactic(auto)]

mod plates;
mod set;

pub use plates::{plate_in_book, plate_on_line};
pub use set::is_plate_byte;
