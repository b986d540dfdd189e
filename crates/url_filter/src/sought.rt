//! The search for the places at which a pattern may fit, by one of its bytes.
ghost use Rattle.std.specs.Prelude.{◌≡◌, ℕ, IfSome, IsTrue, length};
ghost use Rattle.memchr.specs.Find.{is_byte2};
ghost use Rattle.dnr_spec.specs.UrlFilter.{fits_at, is_same, some_end};
ghost use Rattle.url_filter.specs.Sought.{IsSought, NeverFits};
ghost use Rattle.url_filter.specs.Told.{IsShorter, Tells};

use crate::walks::{Stop, is_same, walk};
use memchr::memchr2_iter;

// How common a byte is in URLs, by a guess: those of `https://` stand in each, then letters go by how
// often words have them. It decides how fast a search is, and no answer.
fn commonness(byte: u8) -> u8 {
    match byte.to_ascii_lowercase() {
        b'h' | b't' | b'p' | b's' | b':' | b'/' | b'.' => 5,
        b'e' | b'a' | b'o' | b'i' | b'c' | b'm' | b'n' | b'r' | b'w' => 4,
        b'l' | b'd' | b'g' | b'u' | b'b' | b'-' | b'0' | b'1' | b'2' => 3,
        b'f' | b'y' | b'v' | b'k' | b'=' | b'_' | b'&' | b'?' | b'%' | b'3'..=b'9' => 2,
        b'x' | b'j' => 1,
        _ => 0,
    }
}

/// Where the byte of the pattern's first piece stands that is the least common.
pub fn sought_in(pattern: &[u8]) -> Option<u16>
    ensures { IfSome result (IsSought pattern.now) }
{
    let mut sought = None;
    let mut least = u8::MAX;
    for (i, &byte) in pattern.iter().enumerate() {
        if byte == b'*' {
            break;
        }
        if byte != b'^' && commonness(byte) < least {
            least = commonness(byte);
            sought = u16::try_from(i).ok();
        }
    }
    sought
}

/// Whether the sought byte rules out that the pattern fits from the beginning of the text on.
pub fn is_ruled_out(fold: bool, pattern: &[u8], sought: Option<u16>, text: &[u8]) -> bool
    requires { IfSome sought (IsSought pattern.now) }
    ensures { IsTrue result → NeverFits fold pattern.now text.now }
{
    let Some(offset) = sought.map(usize::from) else {
        return false;
    };
    text.len() <= offset || !is_same(fold, text[offset], pattern[offset])
}

// The other case of a letter where the filter folds, and else the byte itself.
fn other_case(fold: bool, byte: u8) -> u8
    ensures { (x : ℕ) → is_same fold x byte ≡ is_byte2 byte result x }
{
    if fold && byte.is_ascii_lowercase() {
        byte.to_ascii_uppercase()
    } else if fold {
        byte.to_ascii_lowercase()
    } else {
        byte
    }
}

/// Walks from the first place of the text on where it does not fail, among those that the byte of the
/// pattern at `offset` allows.
pub fn place_by_byte<'a>(
    ends: bool,
    fold: bool,
    pattern: &'a [u8],
    offset: usize,
    text: &'a [u8],
) -> Stop<'a>
    requires { IsSought pattern.now offset }
    ensures told { Tells ends fold (some_end (fits_at ends fold pattern.now) text.now) result }
    ensures shorter { IsShorter pattern.now result }
{
    if text.len() < offset {
        return Stop::Fails;
    }
    let byte = pattern[offset];
    let other = other_case(fold, byte);
    for place in memchr2_iter(byte, other, &text[offset..]) {
        match walk(ends, fold, pattern, &text[place..]) {
            Stop::Fails => {}
            stop => return stop,
        }
    }
    Stop::Fails
}
