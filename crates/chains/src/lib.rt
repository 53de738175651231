// Searches in linear time. Fixed-width lines with one hash are chained, each to the nearest before it; numbers of any kind with one hash are chained ahead, each to the next.
#![tactic(auto)]

mod ahead;
mod hash;
mod indexing;
mod search;

pub use ahead::{clear_ahead, enter_ahead, next_ahead};
pub use hash::{HASHES, hash_line, hash_two};
pub use indexing::{Index, Rows, index_lines};
pub use search::{Sought, all_different, is_member, is_repeated, last_agreeing};
