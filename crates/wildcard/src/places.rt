// The places of a pattern from which its pieces take what a text has from some byte on, to its end.
ghost use Rattle.std.specs.Prelude.{◌≡◌, ◌&&◌, ◌+◌, ◌<◌, ◌≤◌, ℕ, List, Bool, length, slice_index_or};
ghost use Rattle.wildcard.specs.Places.{takes_nothing, Stands, TellsBefore, RowStands};
ghost use Rattle.wildcard.specs.Words.{AreNoted};

use crate::noted::{note, places_of};
use crate::words::{behind, both, either, here_or_later, told};
use dnr_spec::Piece;

// The table for what is left behind a part of a text, up to a place and without it, and with that part from
// there on.
#[derive(Clone, Copy)]
struct Row {
    place: usize,
    // What the table had for the place.
    was: bool,
    // What it has to have for the place from each byte of the part on.
    word: u64,
}

/// The table for the end of a text.
pub(crate) fn begin(table: &mut [bool], pieces: &[Piece])
    requires { length pieces.now < length table.old }
    ensures { (fold : Bool) (text : List ℕ) → Stands fold pieces.now text (length text) table.new }
{
    let mut place = pieces.len();
    let mut now = true;
    table[place] = now;
    while place > 0 {
        place -= 1;
        now = take_nothing(pieces[place], now);
        table[place] = now;
    }
}

// Whether this piece and those behind it may take no byte, by whether those behind it may.
fn take_nothing(piece: Piece, behind: bool) -> bool
    ensures { result ≡ (takes_nothing piece && behind) }
{
    match piece {
        Piece::AnyBytes | Piece::AtMostOne => behind,
        Piece::Byte(_) => false,
    }
}

// The word of a place by that of the next. `old` and `was` are what the table had for these two.
fn word_before(words: &[u64], fold: bool, piece: Piece, old: bool, was: bool, word: u64) -> u64
    requires { length words.now ≡ 256 }
    ensures { TellsBefore fold words.now piece old was word result }
{
    match piece {
        Piece::AnyBytes => here_or_later(word, old),
        Piece::AtMostOne => either(word, behind(word, was)),
        Piece::Byte(wanted) => both(behind(word, was), places_of(words, fold, wanted)),
    }
}

// The row with one place more, the one before. `first` is the place of the part's first byte in the words.
fn place_before(
    table: &mut [bool],
    row: Row,
    pieces: &[Piece],
    words: &[u64],
    fold: bool,
    first: u32,
) -> Row
    requires more { 0 < row.place }
    requires within { row.place ≤ length pieces.now }
    requires room { length pieces.now < length table.old }
    requires words { length words.now ≡ 256 }
    requires few { first < 64 }
    ensures less { result.place + 1 ≡ row.place }
    ensures room { length table.new ≡ length table.old }
    ensures stands { (text : List ℕ) (from to : ℕ) → to ≤ length text → (first + 1) + from ≡ to
        → AreNoted fold text to (first + 1) words.now
        → RowStands fold pieces.now text from to table.old row
        → RowStands fold pieces.now text from to table.new result }
{
    let place = row.place - 1;
    let old = table[place];
    let word = word_before(words, fold, pieces[place], old, row.was, row.word);
    table[place] = told(word, first);
    Row {
        place,
        was: old,
        word,
    }
}

/// The table for what is left from this byte of the text on, of the one for what is left from a later one on.
pub(crate) fn step(
    table: &mut [bool],
    pieces: &[Piece],
    fold: bool,
    text: &[u8],
    from: usize,
    to: usize,
)
    requires order { from < to }
    requires few { to ≤ from + 64 }
    requires within { to ≤ length text.now }
    requires room { length pieces.now < length table.old }
    requires stands { Stands fold pieces.now text.now to table.old }
    ensures { Stands fold pieces.now text.now from table.new }
{
    let mut words = [0; 256];
    note(&mut words, fold, text, to, to - from);
    let mut row = Row {
        place: pieces.len(),
        was: table[pieces.len()],
        word: 0,
    };
    table[pieces.len()] = false;
    while row.place > 0 {
        row = place_before(table, row, pieces, &words, fold, (to - from - 1) as u32);
    }
}
