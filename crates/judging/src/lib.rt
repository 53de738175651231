// The lines of a TIF judged in order, L1 to L9: each into its word, with the marks that result; and the sums of what was accepted and refused.
#![tactic(auto)]

mod file;
mod line;
mod sums;

pub use line::Judging;
pub use sums::{Sums, Tally, sums_of};
