ghost use Rattle.std.specs.Prelude.{◌≡◌, true, ◌<◌, length};
ghost use Rattle.lines.specs.Spans.{spans_in};
ghost use Rattle.chains.specs.Hash.{hashes, mixed, folded, hash_two, Mixed, Hashed};

use lines::{Columns, field};

// How many hashes there are.
pub const HASHES: usize = 4096;

// A hash on its way is below 2^32: a clause, here and below, and no type, since none leaves this file so.
fn mix(h: usize, b: usize) -> usize
    requires { (h < 4294967296) × (b < 256) }
    ensures { (result ≡ mixed h b) × (result < 4294967296) }
{
    (h * 2654435761 + b + 1) % 4294967296
}

#[tactic(auto, using(crate::specs::HashLaws::bytes_zero, crate::specs::HashLaws::bytes_suc))]
fn mix_text(h: usize, text: &[u8]) -> usize
    requires { h < 4294967296 }
    ensures { Mixed h text.now result }
{
    let mut x = h;
    for &b in text {
        x = mix(x, usize::from(b));
    }
    x
}

// The upper 12 of 32 bits. The last byte reaches them only when it is mixed once more.
fn folded(h: usize) -> usize
    requires { h < 4294967296 }
    ensures { (result ≡ folded h) × (result < hashes) }
{
    mix(h, 0) / 1048576 % HASHES
}

// The hash of the texts that the spans of the line hold.
pub fn hash_line(line: &[u8], spans: &[Columns]) -> usize
    requires { spans_in (length line.now) spans.now ≡ true }
    ensures { Hashed spans.now line.now result }
{
    let mut h = 0;
    for &columns in spans {
        h = mix_text(h, field(line, columns));
    }
    folded(h)
}

// The hash of two texts.
pub fn hash_two(a: &[u8], b: &[u8]) -> usize
    ensures { (result ≡ hash_two a.now b.now) × (result < hashes) }
{
    folded(mix_text(mix_text(0, a), b))
}
