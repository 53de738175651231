// The period of a sound agreement book that covers a passage (L7).
#![tactic(auto)]

mod cover;
mod halving;
mod pans;
mod plates;
mod rising;

pub use cover::{Detected, Place, cover_at};
pub use pans::index_pans;
pub use plates::{PLATE_LINKS, cover_by, index_plates};
