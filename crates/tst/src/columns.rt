use lines::{Columns, Layout};

// A toll station table: header, lines and footer, line feeds included.
pub const TST: Layout = Layout {
    header: 128,
    line: 233,
    footer: 64,
};

// The header.
pub const RECORD_COUNT: Columns = Columns { from: 66, to: 80 };

pub const VERSION: Columns = Columns { from: 95, to: 100 };

// A line.
pub const ACTOR: Columns = Columns { from: 4, to: 9 };

pub const STATION: Columns = Columns { from: 61, to: 64 };

pub const LANE: Columns = Columns { from: 117, to: 120 };

// What no two lines of a table share: actor, station and lane.
pub const STATION_SPANS: [Columns; 3] = [ACTOR, STATION, LANE];

// Exit actor, station and lane of a TIF's line.
pub const EXIT_SPANS: [Columns; 3] = [passage::EXIT_ACTOR, passage::STATION, passage::LANE];
