ghost use Rattle.exports.specs.Tics.{TicRewritten};

use tic::{RewriteFault, rewrite_tic};

// Writes what was read of a TIC: 0 and the length written, or 1 to 5 for T1 to T5, or 107 for E7, with nothing written.
#[unsafe(no_mangle)]
pub extern "C" fn quindaf_rewrite_tic(tic: &[u8], out: &mut [u8], length: &mut [u64; 1]) -> u32
    ensures { TicRewritten tic.now out.old length.old result out.new length.new }
{
    match rewrite_tic(tic, out) {
        Ok(n) => {
            *length = [n as u64];
            0
        }
        Err(RewriteFault::Unreadable(fault)) => u32::from(fault),
        Err(RewriteFault::TooShort) => 107,
    }
}
