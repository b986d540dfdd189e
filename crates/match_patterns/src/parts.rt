// The parts of a pattern `scheme://host/path`.
ghost use Rattle.std.specs.Prelude.{◌≡◌, drop};
ghost use Rattle.dnr_spec.specs.MatchPatterns as spec;
ghost use Rattle.match_patterns.specs.Parts.{AreCuts, parts_seen};

use crate::hosts::{covers_host, is_host_part};
use crate::path::fits_path;
use crate::stars::{place_of, place_of_path};
use dnr_base::{Scheme, View};

// Where a text is cut into parts: how long its scheme is, and its host.
#[derive(Clone, Copy, Debug)]
pub(crate) struct Cuts {
    pub scheme: usize,
    pub host: usize,
}

// The texts of the parts; the path begins with its `/`.
#[derive(Clone, Copy)]
pub(crate) struct Parts<'a> {
    pub scheme: &'a [u8],
    pub host: &'a [u8],
    pub path: &'a [u8],
}

fn is_web(scheme: Scheme) -> bool
    ensures { result ≡ spec.is_web scheme }
{
    matches!(scheme, Scheme::Http | Scheme::Https)
}

fn fits_scheme(text: &[u8], scheme: Scheme) -> bool
    ensures { result ≡ spec.fits_scheme text.now scheme }
{
    if text == b"*".as_slice() {
        is_web(scheme)
    } else {
        text == scheme.name().as_bytes()
    }
}

fn is_scheme_part(text: &[u8]) -> bool
    ensures { result ≡ spec.is_scheme_part text.now }
{
    Scheme::ALL.iter().any(|scheme| fits_scheme(text, *scheme))
}

// What should be the two slashes, and all behind them.
fn behind_scheme(text: &[u8]) -> &[u8]
    ensures { result.now ≡ spec.from 58 text.now }
{
    &text[place_of(b':', text)..]
}

// What stands behind the first three bytes.
fn behind_three(text: &[u8]) -> &[u8]
    ensures { result.now ≡ drop 3 text.now }
{
    &text[text.len().min(3)..]
}

// Where the text is cut.
pub(crate) fn cuts_of(text: &[u8]) -> Cuts
    ensures { AreCuts text.now result }
{
    let scheme = place_of(b':', text);
    let rest = behind_three(&text[scheme..]);
    Cuts {
        scheme,
        host: place_of(b'/', rest),
    }
}

// The parts of the text, if it has the form of a pattern.
pub(crate) fn parts_at(text: &[u8], cuts: Cuts) -> Parts<'_>
    requires { AreCuts text.now cuts }
    ensures { parts_seen result ≡ spec.cut_parts text.now }
{
    let (scheme, behind) = text.split_at(cuts.scheme);
    let (host, path) = behind_three(behind).split_at(cuts.host);
    Parts { scheme, host, path }
}

// Whether the text has the form of a pattern.
pub(crate) fn has_parts(text: &[u8], cuts: Cuts) -> bool
    requires { AreCuts text.now cuts }
    ensures { result ≡ spec.has_parts text.now }
{
    let parts = parts_at(text, cuts);
    behind_scheme(text).starts_with(b"://")
        && is_scheme_part(parts.scheme)
        && is_host_part(parts.host)
        && !parts.path.is_empty()
}

// What stands in the URL behind its authority, without the fragment.
fn behind_authority(view: &View) -> &[u8]
    ensures { result.now ≡ spec.behind_authority view.now }
{
    let rest = &view.text().as_bytes()[view.host_span().end..];
    &rest[place_of_path(rest)..]
}

// Whether the parts fit the URL.
pub(crate) fn parts_fit(parts: Parts<'_>, view: &View) -> bool
    ensures { result ≡ spec.parts_fit view.now (parts_seen parts.entry) }
{
    fits_scheme(parts.scheme, view.scheme())
        && covers_host(parts.host, view.host())
        && fits_path(parts.path, behind_authority(view))
}
