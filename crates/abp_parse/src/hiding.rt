//! Lines that hide elements of a page.
ghost use Rattle.std.specs.Prelude.{◌≡◌};
ghost use Rattle.list_spec.specs.LineKind as lines;
ghost use Rattle.abp_parse.specs.NextSign.{IsNextSign};

use memchr::memchr;

// Whether a separator stands at the beginning.
fn begins_hiding(text: &[u8]) -> bool
    ensures { result ≡ lines.begins_hiding text.now }
{
    text.starts_with(b"##")
        || text.starts_with(b"#@#")
        || text.starts_with(b"#?#")
        || text.starts_with(b"#$#")
        || text.starts_with(b"#%#")
}

// The rest of the text from the first place on at which a separator may stand.
fn next_sign(text: &[u8]) -> Option<&[u8]>
    ensures { IsNextSign text.now result }
{
    match memchr(b'#', text) {
        Some(place) => Some(&text[place..]),
        None => None,
    }
}

/// Whether the text has a separator between domains and what is hidden on them.
pub fn hides(text: &[u8]) -> bool
    ensures { result ≡ lines.hides text.now }
{
    let mut rest = text;
    while let Some(here) = next_sign(rest) {
        if begins_hiding(here) {
            return true;
        }
        match here.split_first() {
            Some((_, later)) => rest = later,
            None => return false,
        }
    }
    false
}
