ghost use Rattle.std.specs.Prelude.{◌≡◌, true, length};
ghost use Rattle.lines.specs.Spans.{agree_across, agree_on, spans_in, Spanned};

use crate::columns::{Columns, field};
use crate::same::is_same;

// Whether line a by the spans ss holds the same texts as line b by the spans ts. No `all` over a range: its closure would have to show that the spans lie within the lines.
pub fn agree_across(ss: &[Columns], a: &[u8], ts: &[Columns], b: &[u8]) -> bool
    requires { Spanned ss.now a.now ts.now b.now }
    ensures { result ≡ agree_across ss.now a.now ts.now b.now }
{
    for m in 0..ss.len() {
        if !is_same(field(a, ss[m]), field(b, ts[m])) {
            return false;
        }
    }
    true
}

// Whether two lines of one kind agree on each span.
pub fn agree_on(spans: &[Columns], a: &[u8], b: &[u8]) -> bool
    requires { (spans_in (length a.now) spans.now ≡ true) × (spans_in (length b.now) spans.now ≡ true) }
    ensures { result ≡ agree_on spans.now a.now b.now }
{
    agree_across(spans, a, spans, b)
}
