// Whole buffers, read from any reader and written to any writer.
// Of the standard input and output no contract knows the bytes: there no more is promised than how many bytes there are. The clauses on bytes speak where they are known.
#![tactic(auto)]

mod reading;
mod writing;

pub use reading::read_full;
pub use writing::write_full;
