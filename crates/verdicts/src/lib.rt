// The verdict on a line of a TIF: what it says, its number and its word, the record of a line, and the tests that a line passes or fails by itself (L1 to L5, and L9 where it is told whether the station is known).
#![tactic(auto)]

mod line_tests;
mod record;
mod tables;
mod verdict;

pub use line_tests::{
    fields_in_form, is_from_sender, is_known_vehicle, is_lawful_type, plates_in_form, test_line,
};
pub use record::{Record, record_of};
pub use verdict::{Verdict, word_of};
