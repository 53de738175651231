use lines::{Columns, Layout};

// A TIC: header, listed lines and footer, line feeds included. A column of the same name in a TIF stands elsewhere.
pub const TIC: Layout = Layout {
    header: 196,
    line: 812,
    footer: 128,
};

// The header. The TIC's sender is the TIF's receiver, and its receiver the TIF's sender.
pub const TIF_RECEIVER: Columns = Columns { from: 2, to: 7 };

pub const TIF_SENDER: Columns = Columns { from: 8, to: 13 };

pub const OWN_KIND: Columns = Columns { from: 14, to: 16 };

pub const OWN_STEM: Columns = Columns { from: 17, to: 34 };

pub const RECEIVED_KIND: Columns = Columns { from: 35, to: 37 };

pub const RECEIVED_STEM: Columns = Columns { from: 38, to: 55 };

pub const RECEIVED_IDENTITY: Columns = Columns { from: 35, to: 55 };

pub const RECEIVED_SENDER: Columns = Columns { from: 38, to: 43 };

pub const RECEPTION_MOMENT: Columns = Columns { from: 56, to: 69 };

pub const CURRENCY: Columns = Columns { from: 70, to: 72 };

pub const ACCEPTED: Columns = Columns { from: 73, to: 87 };

pub const REJECTED: Columns = Columns { from: 88, to: 102 };

pub const SIDE: Columns = Columns { from: 103, to: 105 };

pub const ACCEPTED_AGAIN: Columns = Columns { from: 106, to: 120 };

pub const REJECTED_AGAIN: Columns = Columns { from: 121, to: 135 };

pub const TIC_VERSION: Columns = Columns { from: 136, to: 141 };

pub const TIC_NUMBER: Columns = Columns { from: 142, to: 147 };

pub const HEADER_FILLER: Columns = Columns { from: 148, to: 193 };

pub const ACCEPTANCE: Columns = Columns { from: 194, to: 195 };

// A listed line: what is copied of the TIF's line, the line as it is shown, and the refusal code.
pub const COPIED: Columns = Columns { from: 2, to: 809 };

pub const SHOWN: Columns = Columns { from: 1, to: 809 };

pub const CODE: Columns = Columns { from: 810, to: 811 };

// The footer.
pub const ACCEPTED_SUM: Columns = Columns { from: 2, to: 16 };

pub const REJECTED_SUM: Columns = Columns { from: 17, to: 31 };

pub const FOOTER_FILLER: Columns = Columns { from: 32, to: 127 };

// The sender in a file stem.
pub const STEM_SENDER: Columns = Columns { from: 1, to: 6 };
