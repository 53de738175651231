// The toll station table (AP-3.4): whether a lent one is of the right form (E8), and whether a line names one of its stations (L9).
#![tactic(auto)]

mod columns;
mod form;
mod stations;

pub use form::{is_lent, table_sound};
pub use stations::{index_stations, is_known_station};
