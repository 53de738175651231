// Reading a TIC, showing its listed lines, and writing what was read.
#![tactic(auto)]

mod listed;
mod reading;
mod rewriting;

pub use listed::{
    Listed, ListedFault, ListedPlace, listed_line, shown_code, shown_identity, shown_line,
    shown_moment, shown_receiver,
};
pub use reading::read_tic;
pub use rewriting::{RewriteFault, rewrite_tic};
