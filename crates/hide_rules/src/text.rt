//! The selector of a line.
ghost use Rattle.std.specs.Prelude.{◌≡◌, reverse};
ghost use Rattle.hide_spec.specs.HidingLine as spec;

fn is_space_or_tab(byte: u8) -> bool
    ensures { result ≡ spec.is_space_or_tab byte }
{
    matches!(byte, b' ' | b'\t')
}

// The text without spaces and tabs at its beginning.
fn behind_spaces(text: &[u8]) -> &[u8]
    ensures { result.now ≡ spec.behind_spaces text.now }
{
    let mut rest = text;
    while let Some((first, later)) = rest.split_first() {
        if !is_space_or_tab(*first) {
            return rest;
        }
        rest = later;
    }
    rest
}

// The text without spaces and tabs at its end.
fn before_spaces(text: &[u8]) -> &[u8]
    ensures { result.now ≡ reverse (spec.behind_spaces (reverse text.now)) }
{
    let mut rest = text;
    while let Some((last, before)) = rest.split_last() {
        if !is_space_or_tab(*last) {
            return rest;
        }
        rest = before;
    }
    rest
}

/// The selector in what stands behind a separator: without spaces and tabs at its ends.
pub fn selector_of(text: &[u8]) -> &[u8]
    ensures { result.now ≡ spec.selector_of text.now }
{
    before_spaces(behind_spaces(text))
}
