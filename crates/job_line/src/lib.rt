// The line that the program prints for an answer.
#![tactic(auto)]

mod line;
mod number;

pub use line::put_answer;
