// The agreement book: where its parts stand, and its form (E5).
#![tactic(auto)]

mod form;
mod layout;

pub use form::check_book;
pub use layout::{
    END, ENTRIES, NATION, PAN, PERIOD, PLATE, START, agreements_of, offset_of, pan_of, period_of,
    periods_at,
};
