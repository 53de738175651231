ghost use Rattle.std.specs.Prelude.{◌≡◌, true, length};
ghost use Rattle.tic_parts.specs.Reading.{footer_formed, sums_of, sums_fit};

use lines::{Class, Gross, all_of, field, number_of};
use tic_text::{ACCEPTED_SUM, FOOTER_FILLER, REJECTED_SUM, TicHead, TicSums};

// Whether the footer begins as one, and has sums and a filler.
#[tactic(auto, unfolding(crate::specs::Reading::footer_formed, tif::specs::Every::every, lines::specs::Number::all_digits))]
pub fn footer_formed(f: &[u8]) -> bool
    requires { length f.now ≡ 128 }
    ensures { result ≡ footer_formed f.now }
{
    f[0] == b'2'
        && all_of(Class::Digit, field(f, ACCEPTED_SUM))
        && all_of(Class::Digit, field(f, REJECTED_SUM))
        && all_of(Class::Only(b'0'), field(f, FOOTER_FILLER))
}

// The sums of a footer of the right form.
pub fn sums_of(f: &[u8]) -> TicSums
    requires { (length f.now ≡ 128) × (footer_formed f.now ≡ true) }
    ensures { result ≡ sums_of f.now }
{
    TicSums {
        accepted: Gross(number_of(field(f, ACCEPTED_SUM))),
        rejected: Gross(number_of(field(f, REJECTED_SUM))),
    }
}

// Whether the sums are those that the header and the listed lines determine.
#[tactic(auto, unfolding(crate::specs::Reading::sums_fit, tif::specs::Every::every))]
pub fn sums_fit(head: TicHead, sums: TicSums, listed: Gross) -> bool
    ensures { result ≡ sums_fit head sums listed.0 }
{
    sums.rejected == listed && (head.accepted.0 > 0 || sums.accepted == Gross(0))
}
