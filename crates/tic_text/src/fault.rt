ghost use Rattle.std.specs.Prelude.{◌≡◌};
ghost use Rattle.tic_text.specs.Fault.{fault_number};

// Why a TIC does not read: T1 to T5.
#[derive(Clone, Copy)]
pub enum TicFault {
    Framing,
    Header,
    Counts,
    ListedLine,
    Footer,
}

// The paper's number of a fault, 1 to 5.
impl From<TicFault> for u32 {
    ghost from_gives = { λ fault n. n ≡ fault_number fault };

    fn from(fault: TicFault) -> u32 {
        match fault {
            TicFault::Framing => 1,
            TicFault::Header => 2,
            TicFault::Counts => 3,
            TicFault::ListedLine => 4,
            TicFault::Footer => 5,
        }
    }
}
