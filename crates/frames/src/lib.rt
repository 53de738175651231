// Framed cases for the programs that run vectors: a kind byte, then parts, each with its length before it; and what such a program prints.
// A reader or a writer whose bytes are not known, as the standard input and output, is promised no more than sizes: the clauses on bytes speak where they are known.
#![tactic(auto)]

mod cases;
mod input;
mod output;

pub use cases::run_cases;
pub use input::{read_kind, read_part};
pub use output::{print_after_space, print_bytes, print_line_feed, print_marks, print_number};
