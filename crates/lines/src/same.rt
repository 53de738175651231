ghost use Rattle.std.specs.Prelude.{◌≡◌, ◌≤◌, length};
ghost use Rattle.lines.specs.Found.{found_below};
ghost use Rattle.lines.specs.Same.{differ_at, same, before};
ghost use Rattle.lines.specs.Word.{Decides};

use crate::word::word_at;

// The first place where texts of one length differ. That they are of one length is asked by a clause, here and below, since they are lent as two slices.
fn first_difference(a: &[u8], b: &[u8]) -> Option<usize>
    requires { length a.now ≡ length b.now }
    ensures { result ≡ found_below (length a.now) (differ_at a.now b.now) }
{
    (0..a.len()).find(|&i| a[i] != b[i])
}

// The place of the words that decide how texts of one length compare: the first that differ, else the last.
// The last word overlaps the one before it where the length is no multiple of eight.
fn deciding_word(a: &[u8], b: &[u8]) -> usize
    requires { (length a.now ≡ length b.now) × (8 ≤ length a.now) }
    ensures { Decides a.now b.now result }
{
    let last = a.len() - 8;
    for i in (0..last).step_by(8) {
        if word_at(a, i) != word_at(b, i) {
            return i;
        }
    }
    last
}

// Whether the texts are of one length and nowhere different. Speed: `a == b` takes three times as long at a PAN.
pub fn is_same(a: &[u8], b: &[u8]) -> bool
    ensures { result ≡ same a.now b.now }
{
    if a.len() != b.len() {
        return false;
    }
    if a.len() < 8 {
        return first_difference(a, b).is_none();
    }
    let at = deciding_word(a, b);
    word_at(a, at) == word_at(b, at)
}

// Whether a, as written, stands before b of the same length. Speed: `a < b` takes nine times as long at a PAN.
#[tactic(auto, unfolding(crate::specs::Same::before))]
pub fn is_before(a: &[u8], b: &[u8]) -> bool
    requires { length a.now ≡ length b.now }
    ensures { result ≡ before a.now b.now }
{
    if a.len() < 8 {
        return match first_difference(a, b) {
            Some(i) => a[i] < b[i],
            None => false,
        };
    }
    let at = deciding_word(a, b);
    word_at(a, at) < word_at(b, at)
}
