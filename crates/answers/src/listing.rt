ghost use Rattle.std.specs.Prelude.{◌≡◌, ◌+◌, ◌*◌, ◌≤◌, ◌<◌, length};
ghost use Rattle.lines.specs.Below.{join_below};
ghost use Rattle.lines.specs.Splice.{Put};
ghost use Rattle.tic_text.specs.Text.{listed_at, tic_text};
ghost use Rattle.answers.specs.Listing.{number_at, refused_at, refused_before, refused_text, tic_of, listed_lines, Worded, ListRoom, TicRoom};

use crate::card::code_of;
use crate::inputs::Inputs;
use lines::field;
use tic_text::{Received, TicHead, TicSums, put_footer, put_header, put_listed};
use tif::{NAME_RECEIVER, NAME_STEM, tif_line};

// The paper's number of the verdict on line k.
pub fn number_at(words: &[u64], k: usize) -> usize
    requires { k < length words.now }
    ensures { result ≡ number_at words.now k }
{
    (words[k] % 256) as usize
}

// Writes line k with its code where its word refuses it, and returns the place after.
fn put_refused(inputs: Inputs, words: &[u64], k: usize, out: &mut [u8], at: usize) -> usize
    requires { Worded inputs.tif.now inputs.card.now words.now × (k < length words.now) × (at + length (refused_text inputs.tif.now inputs.card.now words.now k) ≤ length out.old) }
    ensures { Put (refused_text inputs.entry.tif.now inputs.entry.card.now words.now k) at out.old result out.new }
{
    let number = number_at(words, k);
    if number == 0 {
        return at;
    }
    put_listed(
        out,
        at,
        tif_line(inputs.tif, k),
        code_of(inputs.card, number),
    )
}

// Writes the refused lines from a place on, and returns the place after the last.
fn put_lines(inputs: Inputs, words: &[u64], out: &mut [u8], from: usize) -> usize
    requires { ListRoom inputs.tif.now inputs.card.now words.now from out.old }
    ensures { Put (listed_lines inputs.entry.tif.now inputs.entry.card.now words.now (length words.now)) from out.old result out.new }
{
    let mut at = from;
    for k in 0..words.len() {
        at = put_refused(inputs, words, k, out, at);
    }
    at
}

// Writes the whole TIC to the front of out, and returns its length.
pub fn put_tic(inputs: Inputs, words: &[u64], head: TicHead, sums: TicSums, out: &mut [u8]) -> usize
    requires { TicRoom inputs.name.now inputs.received.now inputs.card.now inputs.tif.now words.now head out.old }
    ensures { Put (tic_text (tic_of inputs.entry.name.now inputs.entry.received.now inputs.entry.card.now inputs.entry.tif.now words.now head sums)) 0 out.old result out.new }
{
    let told = Received {
        receiver: field(inputs.name, NAME_RECEIVER),
        stem: field(inputs.name, NAME_STEM),
        moment: inputs.received,
    };
    let mid = put_header(out, 0, told, head);
    let mid = put_lines(inputs, words, out, mid);
    put_footer(out, mid, sums)
}
