// The TIF between the received bytes and the first line verdict: its name, header, lines and footer, and its acceptance.
#![tactic(auto)]

mod acceptance;
mod body;
mod columns;
mod footer;
mod header;
mod name;
mod reader;
mod received;
mod side;

pub use acceptance::{FileFault, Whole, acceptance_of};
pub use body::line_amount;
pub use columns::TIF;
pub use header::NOK;
pub use name::{
    NAME_IDENTITY, NAME_RECEIVER, NAME_SENDER, NAME_STEM, TIF_KIND, VERSION, is_actor,
    is_file_stem, is_name,
};
pub use reader::{Reader, tif_line};
pub use received::{is_received, names_whole};
pub use side::{Side, is_sided, side_in, side_of};
