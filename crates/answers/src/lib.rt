// What a call can be answered: E1 to E6 and E8 in order, what is told of a file, the room that is asked for, and the TIC of its refused lines.
#![tactic(auto)]

mod answer;
mod card;
mod fault;
mod inputs;
mod listing;
mod outcome;

pub use answer::{Answer, CallFault, FileAnswer, Summary};
pub use fault::check_call;
pub use inputs::Inputs;
pub use listing::put_tic;
pub use outcome::{head_of, is_too_small, judged_answer, summarize, summarize_refused, sums_told};
