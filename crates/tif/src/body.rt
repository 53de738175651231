ghost use Rattle.std.specs.Prelude.{◌≡◌, ◌≤◌, length};
ghost use Rattle.lines.specs.Rows.{file_length, most_lines};
ghost use Rattle.passage.specs.Passage.{line_width};
ghost use Rattle.tif.specs.Columns.{tif_layout};
ghost use Rattle.tif.specs.Body.{line_amount, body_amount};

use crate::reader::tif_line;
use lines::{Gross, field, read_digits};
use passage::GROSS_AMOUNT;

// The amount with VAT of a line, where it is of the right form.
#[tactic(auto, unfolding(crate::specs::Body::line_amount, crate::specs::Body::line_sound, crate::specs::Every::every, crate::specs::Body::amount_if, lines::specs::Number::read_digits))]
pub fn line_amount(line: &[u8]) -> Option<Gross>
    requires { length line.now ≡ line_width }
    ensures { result ≡ line_amount line.now }
{
    if line[0] != b'1' {
        return None;
    }
    read_digits(field(line, GROSS_AMOUNT)).map(Gross)
}

// The exact sum of the amounts of n lines, where all are of the right form.
#[tactic(auto, using(crate::specs::BodyLaws::summing), unfolding(crate::specs::Body::body_amount, crate::specs::Body::body_sound, crate::specs::Body::body_total))]
pub fn body_amount(tif: &[u8], n: usize) -> Option<Gross>
    requires { (file_length tif_layout n ≤ length tif.now) × (n ≤ most_lines) }
    ensures { result ≡ body_amount tif.now n }
{
    let mut sum = Gross(0);
    for k in 0..n {
        sum = sum + line_amount(tif_line(tif, k))?;
    }
    Some(sum)
}
