use crate::fault::TicFault;
use lines::{Count, Gross};
use tif::Side;

// What a header tells of the TIF received: columns 23 to 28 and 4 to 21 of its name, and the moment of its reception.
#[derive(Clone, Copy)]
pub struct Received<'a> {
    pub receiver: &'a [u8],
    pub stem: &'a [u8],
    pub moment: &'a [u8],
}

// The numbers of a header.
#[derive(Clone, Copy)]
pub struct TicHead {
    // A number and no enum: put_header writes any of two digits, and a narrower type would ask more of its callers.
    pub acceptance: u64,
    pub side: Side,
    pub accepted: Count,
    pub rejected: Count,
}

// The amounts with VAT of a footer.
#[derive(Clone, Copy)]
pub struct TicSums {
    pub accepted: Gross,
    pub rejected: Gross,
}

// What reading gives: the header's numbers, how many lines are listed, and the footer's sums.
#[derive(Clone, Copy)]
pub struct TicValues {
    pub head: TicHead,
    pub listed: usize,
    pub sums: TicSums,
}

// What reading a TIC gives.
pub type TicReading = Result<TicValues, TicFault>;
