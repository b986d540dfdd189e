//! What pieces take, on patterns whose answer is known.
use std::alloc::{AllocError, Global};
use std::test::Fail;
use wildcard::{Piece, fits};

fn pieces_of(alloc: Global, pattern: &str) -> Result<Vec<Piece>, AllocError> {
    pattern
        .as_bytes()
        .iter()
        .map(|byte| match byte {
            b'*' => Piece::AnyBytes,
            b'?' => Piece::AtMostOne,
            byte => Piece::Byte(*byte),
        })
        .collect(alloc)
}

#[test]
fn pieces_take_a_whole_text(rt: HostRuntime) -> Result<(), Fail> {
    let rows = [
        ("", "", true),
        ("", "a", false),
        ("*", "", true),
        ("?", "", true),
        ("?", "a", true),
        ("?", "ab", false),
        ("text/*", "text/html", true),
        ("text/*", "a text/html", false),
        ("*x?", "text/x", true),
        ("*x?", "text/xy", true),
        ("*x?", "text/xyz", false),
        ("a?b", "ab", true),
        ("a?b", "axb", true),
        ("a?b", "axyb", false),
        ("*a*b", "xaxbxb", true),
        ("*a*b", "xbxa", false),
        (
            "a0?2*?4*9",
            "a0123456789012345678901234567890123456789012345678901234567890123456789012345678901234567890123456789012345678901234567890123456789",
            true,
        ),
        (
            "a0?2*?4*8",
            "a0123456789012345678901234567890123456789012345678901234567890123456789012345678901234567890123456789012345678901234567890123456789",
            false,
        ),
    ];
    for (pattern, text, takes) in rows {
        let pieces = pieces_of(rt.alloc(), pattern)?;
        assert!(rt; pieces.len() <= 8192);
        let got = fits(pieces.as_slice(), text.as_bytes(), false);
        assert_eq!(rt; got, takes, "{pattern} on {text}");
    }
    Ok(())
}

#[test]
fn a_long_pattern_folds_case(rt: HostRuntime) -> Result<(), Fail> {
    let pieces = [Piece::Byte(b'a'); 70];
    let text = [b'A'; 70];
    assert!(rt; fits(&pieces, &text, true));
    assert!(rt; !fits(&pieces, &text, false));
    assert!(rt; !fits(&pieces, &text[..69], true));
    Ok(())
}
