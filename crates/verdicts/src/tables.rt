ghost use Rattle.std.specs.Prelude.{◌≡◌};
ghost use Rattle.verdicts.specs.Tables.{is_listed, types, tariff_classes, emissions, fuels};

use lines::is_same;

// Types of transit: Table 1.
const TYPES: [[u8; 2]; 8] = [
    *b"C1", *b"D1", *b"C3", *b"D3", *b"C4", *b"C8", *b"D8", *b"R2",
];

const TARIFF_CLASSES: [[u8; 2]; 10] = [
    *b"01", *b"02", *b"12", *b"22", *b"31", *b"32", *b"41", *b"51", *b"63", *b"71",
];

const EMISSIONS: [[u8; 2]; 9] = [
    *b"00", *b"01", *b"02", *b"03", *b"04", *b"05", *b"06", *b"07", *b"15",
];

const FUELS: [[u8; 2]; 16] = [
    *b"01", *b"02", *b"03", *b"04", *b"05", *b"06", *b"09", *b"10", *b"11", *b"12", *b"13", *b"14",
    *b"15", *b"20", *b"21", *b"22",
];

// Whether a table has the code.
#[tactic(auto, unfolding(crate::specs::Tables::is_listed))]
fn is_listed(table: &[[u8; 2]], code: &[u8]) -> bool
    ensures { result ≡ is_listed table.now code.now }
{
    table.iter().any(|listed| is_same(listed, code))
}

// Whether the code is a type of transit.
pub fn is_type(code: &[u8]) -> bool
    ensures { result ≡ is_listed types code.now }
{
    is_listed(&TYPES, code)
}

// Whether the code is a tariff class.
#[tactic(auto, unfolding(crate::specs::Tables::tariff_classes, crate::specs::Tables::codes_of, lines::specs::Number::digits_of))]
pub fn is_tariff_class(code: &[u8]) -> bool
    ensures { result ≡ is_listed tariff_classes code.now }
{
    is_listed(&TARIFF_CLASSES, code)
}

// Whether the code is an emission class.
#[tactic(auto, unfolding(crate::specs::Tables::emissions, crate::specs::Tables::codes_of, lines::specs::Number::digits_of))]
pub fn is_emission(code: &[u8]) -> bool
    ensures { result ≡ is_listed emissions code.now }
{
    is_listed(&EMISSIONS, code)
}

// Whether the code is a fuel.
#[tactic(auto, unfolding(crate::specs::Tables::fuels, crate::specs::Tables::codes_of, lines::specs::Number::digits_of))]
pub fn is_fuel(code: &[u8]) -> bool
    ensures { result ≡ is_listed fuels code.now }
{
    is_listed(&FUELS, code)
}
