// The text of a value pattern: which is one, and its pieces.
ghost use Rattle.std.specs.Prelude.{◌≡◌, false, IfOk};
ghost use Rattle.std.specs.List.{list_all};
ghost use Rattle.std.specs.Char.{is_ascii};
ghost use Rattle.dnr_spec.specs.HeaderTests as spec;
ghost use Rattle.header_tests.specs.Read.{piece_as};

use dnr_spec::{NoMemory, Piece};
use std::alloc::Global;

// The most bytes of a pattern.
const MAX_VALUE_PATTERN: usize = 8192;

// Whether a `\` may stand before the byte.
fn is_special(byte: u8) -> bool
    ensures { result ≡ spec.is_special byte }
{
    matches!(byte, b'*' | b'?' | b'\\')
}

// Whether each `\` that is not plain itself stands before a byte that it makes plain.
fn escapes_well(text: &[u8]) -> bool
    ensures { result ≡ spec.escapes_well false text.now }
{
    let mut escaped = false;
    for byte in text {
        if escaped && !is_special(*byte) {
            return false;
        }
        escaped = !escaped && *byte == b'\\';
    }
    !escaped
}

fn has_ascii_alone(text: &[u8]) -> bool
    ensures { result ≡ list_all is_ascii text.now }
{
    text.iter().all(|byte| byte.is_ascii())
}

// Whether the text is a pattern of values.
pub(crate) fn is_value_pattern(text: &str) -> bool
    ensures { result ≡ spec.is_value_pattern text.now }
{
    let bytes = text.as_bytes();
    bytes.len() <= MAX_VALUE_PATTERN && has_ascii_alone(bytes) && escapes_well(bytes)
}

// What a byte stands for; `plain` where a `\` stands before it.
fn piece_of(byte: u8, plain: bool) -> Piece
    ensures { result ≡ piece_as byte plain }
{
    match byte {
        b'*' if !plain => Piece::AnyBytes,
        b'?' if !plain => Piece::AtMostOne,
        _ => Piece::Byte(byte),
    }
}

// The pieces of a pattern.
pub(crate) fn pieces_of(alloc: Global, text: &[u8]) -> Result<Vec<Piece>, NoMemory>
    ensures { IfOk result (λ pieces. pieces.items ≡ spec.pieces_from false text.now) }
{
    let mut pieces = Vec::with_capacity(alloc, text.len())?;
    let mut escaped = false;
    for byte in text {
        let begins_escape = !escaped && *byte == b'\\';
        if !begins_escape {
            pieces.push(piece_of(*byte, escaped))?;
        }
        escaped = begins_escape;
    }
    Ok(pieces)
}
