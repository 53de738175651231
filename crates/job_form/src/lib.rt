// The form of a job: eight lengths, then the eight bodies back to back.
#![tactic(auto)]

mod form;

pub use form::{body_of, is_job};
