use lines::{Columns, Layout};

// A TIF: header, lines and footer, line feeds included.
pub const TIF: Layout = Layout {
    header: 162,
    line: 810,
    footer: 107,
};

// The header.
pub const SENDER: Columns = Columns { from: 2, to: 7 };

pub const RECEIVER: Columns = Columns { from: 8, to: 13 };

pub const SEQUENCE: Columns = Columns { from: 14, to: 34 };

pub const CURRENCY: Columns = Columns { from: 56, to: 58 };

pub const RECORDS: Columns = Columns { from: 59, to: 73 };

pub const SIDE: Columns = Columns { from: 74, to: 76 };

pub const TRANSACTIONS: Columns = Columns { from: 77, to: 91 };

pub const CREATION_MOMENT: Columns = Columns { from: 92, to: 105 };

pub const HEADER_VERSION: Columns = Columns { from: 106, to: 111 };

pub const HEADER_FILLER: Columns = Columns { from: 112, to: 161 };

// The footer.
pub const TOTAL: Columns = Columns { from: 2, to: 16 };

pub const FOOTER_FILLER: Columns = Columns { from: 17, to: 106 };
