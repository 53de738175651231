ghost use Rattle.std.specs.Prelude.{◌≡◌};
ghost use Rattle.exports.specs.Tics.{values_told, TicRead, LineListed};

use crate::numbers::side_number;
use tic::{ListedFault, listed_line, read_tic};
use tic_text::TicValues;

// Writes the seven values of a TIC that was read.
fn put_values(values: &mut [u64; 7], read: TicValues)
    ensures { values.new ≡ values_told read }
{
    *values = [
        read.head.acceptance,
        side_number(read.head.side),
        read.head.accepted.0,
        read.head.rejected.0,
        read.listed as u64,
        read.sums.accepted.0,
        read.sums.rejected.0,
    ];
}

// Reads a TIC: 0 and its values, or 1 to 5 for T1 to T5 and no value.
#[unsafe(no_mangle)]
pub extern "C" fn quindaf_read_tic(tic: &[u8], values: &mut [u64; 7]) -> u32
    ensures { TicRead tic.now values.old result values.new }
{
    match read_tic(tic) {
        Ok(read) => {
            put_values(values, read);
            0
        }
        Err(fault) => u32::from(fault),
    }
}

// Where listed line k, counted from 1, and its code begin in the TIC: 0 and the two places, or 1 to 6 for T1 to T6 and no place.
#[unsafe(no_mangle)]
pub extern "C" fn quindaf_listed(tic: &[u8], k: usize, place: &mut [u64; 2]) -> u32
    ensures { LineListed tic.now k place.old result place.new }
{
    match listed_line(tic, k) {
        Ok(found) => {
            *place = [found.line as u64, found.code as u64];
            0
        }
        Err(ListedFault::NoSuchLine) => 6,
        Err(ListedFault::Unreadable(fault)) => u32::from(fault),
    }
}
