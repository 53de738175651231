// A line of a TIF body: one passage. Its columns, counted from 1 as AP-3.7 (2.2) counts them.
#![tactic(auto)]

use lines::Columns;

// How wide a line is, its line feed included.
pub const WIDTH: usize = 810;

pub const TYPE_OF_TRANSIT: Columns = Columns { from: 2, to: 3 };

pub const PAN: Columns = Columns { from: 4, to: 22 };

pub const EXIT_MOMENT: Columns = Columns { from: 61, to: 74 };

pub const EXIT_ACTOR: Columns = Columns { from: 77, to: 82 };

pub const STATION: Columns = Columns { from: 84, to: 87 };

pub const LANE: Columns = Columns { from: 88, to: 91 };

pub const NET_FEE: Columns = Columns { from: 115, to: 125 };

pub const GROSS_AMOUNT: Columns = Columns { from: 137, to: 147 };

pub const COUNTER: Columns = Columns { from: 228, to: 239 };

pub const DECLARED_PLATE: Columns = Columns { from: 240, to: 249 };

pub const DECLARED_NATION: Columns = Columns { from: 250, to: 251 };

pub const DETECTED_PLATE: Columns = Columns { from: 252, to: 261 };

pub const DETECTED_NATION: Columns = Columns { from: 262, to: 263 };

pub const FUEL: Columns = Columns { from: 293, to: 295 };

pub const EMISSION: Columns = Columns { from: 296, to: 297 };

pub const TARIFF_CLASS: Columns = Columns { from: 298, to: 299 };

// Fields that stand side by side, compared as one text.
const TYPE_AND_PAN: Columns = Columns { from: 2, to: 22 };

const STATION_AND_LANE: Columns = Columns { from: 84, to: 91 };

const DETECTED_VEHICLE: Columns = Columns { from: 252, to: 263 };

// What two lines of one file must not share (L6): type and PAN, exit moment, actor, station and lane, detected plate and nation.
pub const REPEAT_SPANS: [Columns; 5] = [
    TYPE_AND_PAN,
    EXIT_MOMENT,
    EXIT_ACTOR,
    STATION_AND_LANE,
    DETECTED_VEHICLE,
];

// What a debit and its credit share (L8): PAN, exit moment, actor, station and lane, detected plate and nation, amount with VAT.
pub const CREDIT_SPANS: [Columns; 6] = [
    PAN,
    EXIT_MOMENT,
    EXIT_ACTOR,
    STATION_AND_LANE,
    DETECTED_VEHICLE,
    GROSS_AMOUNT,
];
