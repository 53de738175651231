ghost use Rattle.std.specs.Prelude.{◌≡◌};
ghost use Rattle.tif.specs.Received.{names_whole, is_received};

use crate::name::NAME_LENGTH;
use lines::is_same;

// Whether the received names are slots of 35 bytes and nothing else (E4).
#[tactic(auto, unfolding(crate::specs::Received::names_whole))]
pub fn names_whole(names: &[u8]) -> bool
    ensures { result ≡ names_whole names.now }
{
    names.len() % NAME_LENGTH == 0
}

// Whether the name fills one of the slots (02).
pub fn is_received(names: &[u8], name: &[u8]) -> bool
    ensures { result ≡ is_received names.now name.now }
{
    names
        .chunks_exact(NAME_LENGTH)
        .any(|slot| is_same(slot, name))
}
