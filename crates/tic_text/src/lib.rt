// The TIC as a text: its columns, the values that it has, and how it is rendered.
#![tactic(auto)]

mod columns;
mod fault;
mod header_text;
mod text;
mod values;

pub use columns::{
    ACCEPTANCE, ACCEPTED, ACCEPTED_AGAIN, ACCEPTED_SUM, CODE, COPIED, CURRENCY, FOOTER_FILLER,
    HEADER_FILLER, OWN_KIND, OWN_STEM, RECEIVED_IDENTITY, RECEIVED_KIND, RECEIVED_SENDER,
    RECEIVED_STEM, RECEPTION_MOMENT, REJECTED, REJECTED_AGAIN, REJECTED_SUM, SHOWN, SIDE,
    STEM_SENDER, TIC, TIC_NUMBER, TIC_VERSION, TIF_RECEIVER, TIF_SENDER,
};
pub use fault::TicFault;
pub use header_text::{TIC_KIND, put_header, put_side};
pub use text::{put_footer, put_listed};
pub use values::{Received, TicHead, TicReading, TicSums, TicValues};
