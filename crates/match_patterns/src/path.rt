// Paths with stars that a whole text fits.
ghost use Rattle.std.specs.Prelude.{◌≡◌, ◌+◌, ◌≤◌, length, map, drop, false};
ghost use Rattle.std.specs.Str.{bytes_eq};
ghost use Rattle.dnr_spec.specs.UrlFilter.{some_end};
ghost use Rattle.dnr_spec.specs.Wildcards.{takes};
ghost use Rattle.dnr_spec.specs.MatchPatterns.{path_piece};
ghost use Rattle.match_patterns.specs.Stars as stars;

use crate::stars::split_at_star;
use memchr::memmem;

// Whether the path fits the whole text. A star may stand for any number of bytes, so the first place at which
// what stands between two stars is found is as good as any other, and the text is walked once.
pub(crate) fn fits_path(path: &[u8], text: &[u8]) -> bool
    ensures { result ≡ takes false (map path_piece path.now) text.now }
{
    let (piece, behind) = split_at_star(path);
    let Some(behind) = behind else {
        return text == piece;
    };
    match text.strip_prefix(piece) {
        Some(rest) => fits_some_end(behind, rest),
        None => false,
    }
}

// Whether the path fits some end of the text.
fn fits_some_end(path: &[u8], text: &[u8]) -> bool
    ensures { result ≡ some_end (takes false (map path_piece path.now)) text.now }
{
    let (mut path, mut text) = (path, text);
    loop {
        let (piece, behind) = split_at_star(path);
        let Some(behind) = behind else {
            return is_end(piece, text);
        };
        let Some(place) = memmem::find(text, piece) else {
            return false;
        };
        text = left_behind(text, place, piece.len());
        path = behind;
    }
}

// What is left of the text behind so many bytes from this place on.
fn left_behind(text: &[u8], place: usize, count: usize) -> &[u8]
    requires { place + count ≤ length text.now }
    ensures { result.now ≡ drop (place + count) text.now }
{
    &text[place + count..]
}

// Whether the text ends so.
fn is_end(piece: &[u8], text: &[u8]) -> bool
    ensures { result ≡ stars.is_end piece.now text.now }
{
    piece.len() <= text.len() && piece == &text[text.len() - piece.len()..]
}
