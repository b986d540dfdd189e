ghost use Rattle.std.specs.Prelude.{◌≡◌, ◌<◌, ◌≤◌, length};
ghost use Rattle.dnr_spec.specs.Wildcards.{takes};

use crate::places::{begin, step};
use dnr_spec::Piece;

// The places of the longest pattern: 8,192 pieces, and its end.
const PLACES: usize = 8193;

// A pattern of fewer pieces has a table of this many places, which is made in less time.
const FEW: usize = 64;

// A word has an answer for each of so many bytes.
const PART: usize = 64;

/// Whether the pieces in turn take the whole text; `fold` where the case of ASCII letters does not matter.
///
/// It takes no memory but a table on the stack, a byte for each of 8,193 places in the pattern. For each 64 bytes
/// of the text it takes a few steps for each piece, whatever these are.
pub fn fits(pieces: &[Piece], text: &[u8], fold: bool) -> bool
    requires { length pieces.now ≤ 8192 }
    ensures { result ≡ takes fold pieces.now text.now }
{
    if pieces.len() < FEW {
        let mut table = [false; FEW];
        fits_by(&mut table, pieces, text, fold)
    } else {
        let mut table = [false; PLACES];
        fits_by(&mut table, pieces, text, fold)
    }
}

// Walks the text from its end to its beginning, a part at a time.
fn fits_by(table: &mut [bool], pieces: &[Piece], text: &[u8], fold: bool) -> bool
    requires { length pieces.now < length table.old }
    ensures { result ≡ takes fold pieces.now text.now }
{
    begin(table, pieces);
    let mut left = text.len();
    while left > 0 {
        let from = left.saturating_sub(PART);
        step(table, pieces, fold, text, from, left);
        left = from;
    }
    table[0]
}
