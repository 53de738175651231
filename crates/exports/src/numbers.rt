ghost use Rattle.std.specs.Prelude.{◌≡◌};
ghost use Rattle.answers.specs.Answer as call;
ghost use Rattle.exports.specs.Numbers.{side_number};

use answers::CallFault;
use tif::Side;

// A side by its number in the C interface, which tif does not know; so no From, which would stand in its crate.
pub fn side_number(side: Side) -> u64
    ensures { result ≡ side_number side }
{
    match side {
        Side::Neither => 0,
        Side::Credit => 1,
        Side::Debit => 2,
    }
}

// E1 to E8 in the width of an answer of the C interface.
pub fn call_fault_number(fault: CallFault) -> u32
    ensures { result ≡ call.fault_number fault }
{
    u64::from(fault) as u32
}
