// The call: what is lent is judged, and the TIC, the records and the marks are written once nothing can be refused any more.
#![tactic(auto)]

mod attempt;
mod call;
mod records;
mod words;

pub use attempt::lines_to_record;
pub use call::judge;
pub use words::judge_words;
