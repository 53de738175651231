// The program's job: from its bytes to the line that is printed.
#![tactic(auto)]

mod call;
mod line;

pub use line::answer_job;
