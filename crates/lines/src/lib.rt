// Bytes and columns: what every file, book and list of this library is made of.
#![tactic(auto)]

mod class;
mod columns;
mod kinds;
mod number;
mod put;
mod rows;
mod same;
mod spans;
mod word;

pub use class::{Class, all_of, filled_with, is_of, place_of};
pub use columns::{Columns, field};
pub use kinds::{Count, Gross, Net};
pub use number::{big_endian, number_of, read_digits, value_of};
pub use put::{put_bytes, put_digits, put_run};
pub use rows::{Layout, footer_of, framed_lines, header_of, line_count, line_of};
pub use same::{is_before, is_same};
pub use spans::{agree_across, agree_on};
pub use word::word_at;
