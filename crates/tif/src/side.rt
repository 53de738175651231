ghost use Rattle.std.specs.Prelude.{◌≡◌};
ghost use Rattle.tif.specs.Side.{side_text, side_in, side_of, is_sided};

use crate::columns::SIDE;
use lines::{field, is_same};

// Which side of the account a file is for. No Option of two, since a TIC names neither by a text of its own too.
#[derive(Clone, Copy, PartialEq, Eq)]
pub enum Side {
    Credit,
    Debit,
    Neither,
}

impl Side {
    // The text that names the side, and zeros where there is none.
    pub fn text(self) -> &'static [u8]
        ensures { result.now ≡ side_text self }
    {
        match self {
            Side::Credit => b"CRE",
            Side::Debit => b"DEB",
            Side::Neither => b"000",
        }
    }
}

// The side that a text names, and neither where it is another text.
#[tactic(auto, unfolding(crate::specs::Side::side_in, lines::specs::FirstOf::first_of))]
pub fn side_in(text: &[u8]) -> Side
    ensures { result ≡ side_in text.now }
{
    if is_same(text, Side::Credit.text()) {
        Side::Credit
    } else if is_same(text, Side::Debit.text()) {
        Side::Debit
    } else {
        Side::Neither
    }
}

// The side that columns 74 to 76 name, and neither where they hold another text or are missing.
#[tactic(auto, unfolding(crate::specs::Side::side_of, crate::specs::Side::side_in, lines::specs::FirstOf::first_of))]
pub fn side_of(tif: &[u8]) -> Side
    ensures { result ≡ side_of tif.now }
{
    if tif.len() < SIDE.to {
        return Side::Neither;
    }
    side_in(field(tif, SIDE))
}

pub fn is_sided(side: Side) -> bool
    ensures { result ≡ is_sided side }
{
    side != Side::Neither
}
