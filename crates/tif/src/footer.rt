ghost use Rattle.std.specs.Prelude.{◌≡◌, length};
ghost use Rattle.tif.specs.Columns.{footer_width};
ghost use Rattle.tif.specs.Footer.{footer_amount};

use crate::columns::{FOOTER_FILLER, TOTAL};
use lines::{Class, Gross, all_of, field, read_digits};

// The total of a footer, where it is of the right form.
#[tactic(auto, unfolding(crate::specs::Footer::footer_amount, crate::specs::Footer::footer_sound, crate::specs::Every::every, crate::specs::Body::amount_if, lines::specs::Number::read_digits))]
pub fn footer_amount(footer: &[u8]) -> Option<Gross>
    requires { length footer.now ≡ footer_width }
    ensures { result ≡ footer_amount footer.now }
{
    if footer[0] != b'2' || !all_of(Class::Only(b'0'), field(footer, FOOTER_FILLER)) {
        return None;
    }
    read_digits(field(footer, TOTAL)).map(Gross)
}
