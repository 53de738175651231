ghost use Rattle.std.specs.Prelude.{◌≡◌, [], Some, OnOk, IfErr};
ghost use Rattle.frames.specs.Runs.{state_of, RunsToEnd, RunsToError};

use crate::input::read_kind;
use std::io;
use std::io::{Read, Write};

// Runs each case by its kind, until a case says that no more is to be read or the input ends. Where the input is known to be empty, no case runs.
pub fn run_cases<R: Read, W: Write, F: FnMut(&mut R, &mut W, u8) -> io::Result<bool>>(
    from: &mut R,
    to: &mut W,
    mut run_case: F,
) -> io::Result<()>
    requires { F.IsAlwaysCallable run_case }
    ensures at_end { R.remaining from.old ≡ Some [] → W.contents to.new ≡ W.contents to.old }
    ensures ok { OnOk result (RunsToEnd R.remaining F.FnMut (state_of from.old to.old run_case) from.new to.new) }
    ensures err { IfErr result (λ e. RunsToError R.remaining F.FnMut (state_of from.old to.old run_case) e from.new to.new) }
{
    // A proved loop has to end, and nothing says that an input does: no run uses up so many turns.
    for _ in 0..u64::MAX {
        let Some(kind) = read_kind(from)? else {
            break;
        };
        if !run_case(from, to, kind)? {
            break;
        }
    }
    Ok(())
}
