// The parts of a TIC that is read: header, counts, listed lines and footer, each by its own tests.
#![tactic(auto)]

mod body;
mod counts;
mod footer;
mod header;

pub use body::{lines_formed, listed_sum};
pub use counts::counts_agree;
pub use footer::{footer_formed, sums_fit, sums_of};
pub use header::{head_of, header_sound};
