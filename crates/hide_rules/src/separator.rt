//! Where the separator of a hiding line stands.
ghost use Rattle.std.specs.Prelude.{◌≡◌, ◌==◌, ◌&&◌, ◌<◌, IfSome, length, slice_index, drop};
ghost use Rattle.list_spec.specs.LineKind as lines;
ghost use Rattle.hide_spec.specs.HidingLine as spec;

// Whether a separator stands at the beginning.
fn begins_hiding(text: &[u8]) -> bool
    ensures { result ≡ lines.begins_hiding text.now }
{
    text.starts_with(b"##")
        || text.starts_with(b"#@#")
        || text.starts_with(b"#?#")
        || text.starts_with(b"#$#")
        || text.starts_with(b"#%#")
}

// Whether a separator stands at a place. Few bytes are a `#`.
fn stands_at(text: &[u8], place: usize) -> bool
    requires { place < length text.now }
    ensures { result ≡ lines.begins_hiding (drop place text.now) }
{
    text[place] == b'#' && begins_hiding(&text[place..])
}

/// The leftmost place of a separator.
pub fn separator_place(text: &[u8]) -> Option<usize>
    ensures place { result ≡ spec.separator_place text.now }
    ensures within { IfSome result (λ place. place < length text.now) }
{
    for place in 0..text.len() {
        if stands_at(text, place) {
            return Some(place);
        }
    }
    None
}
