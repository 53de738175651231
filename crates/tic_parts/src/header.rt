ghost use Rattle.std.specs.Prelude.{◌≡◌, true, length};
ghost use Rattle.tic_parts.specs.Reading.{is_side, header_digits, header_sound, head_of};

use lines::{Class, Count, all_of, field, is_same, number_of};
use moment::is_moment;
use tic_text::{
    ACCEPTANCE, ACCEPTED, ACCEPTED_AGAIN, CURRENCY, HEADER_FILLER, OWN_KIND, OWN_STEM,
    RECEIVED_KIND, RECEIVED_SENDER, RECEIVED_STEM, RECEPTION_MOMENT, REJECTED, REJECTED_AGAIN,
    SIDE, TIC_KIND, TIC_NUMBER, TIC_VERSION, TIF_RECEIVER, TIF_SENDER, TicHead,
};
use tif::{NOK, TIF_KIND, VERSION, is_actor, is_file_stem, side_in};

// The bytes of a header.
#[derive(Clone, Copy)]
struct Header<'a> {
    bytes: &'a [u8],
    ghost long: { length bytes.now ≡ 196 },
}

// Whether the text is CRE, DEB or 000, as it is where it is that of the side it names.
#[tactic(auto, unfolding(crate::specs::Reading::is_side, tif::specs::Side::side_in, lines::specs::FirstOf::first_of))]
fn is_side(s: &[u8]) -> bool
    ensures { result ≡ is_side s.now }
{
    is_same(s, side_in(s).text())
}

impl Header<'_> {
    ghost use Rattle.tic_parts.specs.Reading.{names_one_tif, header_formed, header_digits};

    // Whether the header begins as one and all its columns that name the TIF name one real TIF.
    #[tactic(auto, unfolding(crate::specs::Reading::names_one_tif, tif::specs::Every::every))]
    fn names_one_tif(self) -> bool
        ensures { result ≡ names_one_tif self.entry.bytes.now }
    {
        let h = self.bytes;
        h[0] == b'0'
            && is_actor(field(h, TIF_RECEIVER))
            && is_same(field(h, TIF_SENDER), field(h, RECEIVED_SENDER))
            && is_same(field(h, OWN_KIND), &TIC_KIND)
            && is_same(field(h, OWN_STEM), field(h, RECEIVED_STEM))
            && is_same(field(h, RECEIVED_KIND), &TIF_KIND)
            && is_file_stem(field(h, RECEIVED_STEM))
    }

    // Whether its other texts are of the right form.
    #[tactic(auto, unfolding(crate::specs::Reading::header_formed, tif::specs::Every::every))]
    fn is_formed(self) -> bool
        ensures { result ≡ header_formed self.entry.bytes.now }
    {
        let h = self.bytes;
        is_moment(field(h, RECEPTION_MOMENT))
            && is_same(field(h, CURRENCY), &NOK)
            && is_side(field(h, SIDE))
            && is_same(field(h, TIC_VERSION), &VERSION)
            && all_of(Class::Only(b' '), field(h, TIC_NUMBER))
            && all_of(Class::Only(b'0'), field(h, HEADER_FILLER))
    }

    // Whether counts and acceptance are digits.
    #[tactic(auto, unfolding(crate::specs::Reading::header_digits, tif::specs::Every::every, lines::specs::Number::all_digits))]
    fn has_digits(self) -> bool
        ensures { result ≡ header_digits self.entry.bytes.now }
    {
        let h = self.bytes;
        all_of(Class::Digit, field(h, ACCEPTED))
            && all_of(Class::Digit, field(h, REJECTED))
            && all_of(Class::Digit, field(h, ACCEPTED_AGAIN))
            && all_of(Class::Digit, field(h, REJECTED_AGAIN))
            && all_of(Class::Digit, field(h, ACCEPTANCE))
    }
}

// Whether no column of the header is out of form (T2).
#[tactic(auto, unfolding(crate::specs::Reading::header_sound, tif::specs::Every::every))]
pub fn header_sound(h: &[u8]) -> bool
    requires { length h.now ≡ 196 }
    ensures { result ≡ header_sound h.now }
{
    let header = Header { bytes: h };
    header.names_one_tif() && header.is_formed() && header.has_digits()
}

// The numbers of a header whose counts are digits.
pub fn head_of(h: &[u8]) -> TicHead
    requires { (length h.now ≡ 196) × (header_digits h.now ≡ true) }
    ensures { result ≡ head_of h.now }
{
    TicHead {
        acceptance: number_of(field(h, ACCEPTANCE)),
        side: side_in(field(h, SIDE)),
        accepted: Count(number_of(field(h, ACCEPTED))),
        rejected: Count(number_of(field(h, REJECTED))),
    }
}
