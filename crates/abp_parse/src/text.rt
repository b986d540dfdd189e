//! Parts of a line.
ghost use Rattle.std.specs.Prelude.{◌≡◌, ◌==◌, ◌∷◌, ◌<◌, IfOk, IfSome, IsAscii, length, map, position, reverse};
ghost use Rattle.std.specs.Char.{to_ascii_lowercase};
ghost use Rattle.list_spec.specs.LineKind as lines;
ghost use Rattle.list_spec.specs.Pieces as pieces;
ghost use Rattle.abp_parse.specs.Cut.{is_kept_ascii, pieces_left};

use dnr_base::{NoMemory, Text};
use std::alloc::Global;

// Whether the byte is cut off at the ends of a line.
fn is_cut_off(byte: u8) -> bool
    ensures { result ≡ lines.is_cut_off byte }
{
    matches!(byte, b' ' | b'\t' | b'\r')
}

// The line without what is cut off at its beginning.
fn without_front(bytes: &[u8]) -> &[u8]
    ensures { result.now ≡ lines.without_front bytes.now }
{
    let mut rest = bytes;
    while let Some((first, later)) = rest.split_first() {
        if !is_cut_off(*first) {
            return rest;
        }
        rest = later;
    }
    rest
}

// The line without what is cut off at its end.
fn without_end(bytes: &[u8]) -> &[u8]
    ensures { result.now ≡ reverse (lines.without_front (reverse bytes.now)) }
{
    let mut rest = bytes;
    while let Some((last, before)) = rest.split_last() {
        if !is_cut_off(*last) {
            return rest;
        }
        rest = before;
    }
    rest
}

/// The line without spaces, tabs and CR at its ends.
pub fn trimmed(bytes: &[u8]) -> &[u8]
    ensures { result.now ≡ lines.trimmed bytes.now }
{
    without_end(without_front(bytes))
}

/// The first place of a byte.
pub fn place_of(byte: u8, text: &[u8]) -> Option<usize>
    ensures { result ≡ position (λ b. b == byte) text.now }
{
    text.iter().position(|other| *other == byte)
}

/// The piece of a text before the first such byte, and what stands behind the byte, if there is one.
pub fn cut_at(separator: u8, text: &[u8]) -> (&[u8], Option<&[u8]>)
    ensures pieces { pieces.pieces_of separator text.now ≡ result.0.now ∷ pieces_left separator result.1 }
    ensures shorter { IfSome result.1 (λ later. length later.now < length text.now) }
    ensures ascii { IsAscii text.now → is_kept_ascii result.0.now result.1 }
{
    match place_of(separator, text) {
        Some(place) => (&text[..place], Some(&text[place + 1..])),
        None => (text, None),
    }
}

// The bytes as a text.
fn ascii_text(bytes: &[u8]) -> &str
    requires { IsAscii bytes.now }
    ensures { result.now ≡ bytes.now }
{
    match std::str::from_utf8(bytes) {
        Ok(text) => text,
        Err(_) => unreachable!("ASCII is UTF-8"),
    }
}

/// A text of these bytes.
///
/// `NoMemory`: no memory is left for it.
pub fn text_of(alloc: Global, bytes: &[u8]) -> Result<Text, NoMemory>
    requires { IsAscii bytes.now }
    ensures { IfOk result (λ text. text ≡ bytes.now) }
{
    Ok(Text::build(String::from_str(alloc, ascii_text(bytes))?))
}

/// A text of these bytes, with letters in lower case.
///
/// `NoMemory`: no memory is left for it.
pub fn lower_text(alloc: Global, bytes: &[u8]) -> Result<Text, NoMemory>
    requires { IsAscii bytes.now }
    ensures { IfOk result (λ text. text ≡ map to_ascii_lowercase bytes.now) }
{
    let mut text = String::from_str(alloc, ascii_text(bytes))?;
    text.make_ascii_lowercase();
    Ok(Text::build(text))
}
